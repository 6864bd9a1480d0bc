ghost use Rattle.std.specs.Prelude.{◌≡◌, true, IfOk};
ghost use Rattle.sw_tool.specs.Path.{HasNode};

use crate::input::LIMIT;
use crate::log::log_text;
use crate::memory::{CountSink, MemSink, MemSource, SureSource};
use crate::outcome::Outcome;
use crate::report::report;
use crate::run::run;
use crate::source::Source;
use crate::status::Status;
use std::alloc::{AllocError, Global};
use std::process::Abort;
use sw_json::JsonWire;
use sw_tree::fail::{DeError, Refusal};
use sw_tree::mode::Kind;
use sw_tree::path::path_of;
use sw_tree::skipped::Skipped;
use sw_tree::wire::Wire;

/// Words as the machine gives them.
fn words(alloc: Global, words: &[&str]) -> Result<Vec<String>, AllocError> {
    let mut all = Vec::new(alloc);
    for word in words {
        all.push(String::from_str(alloc, word)?)?;
    }
    Ok(all)
}

fn source(
    alloc: Global,
    bytes: &[u8],
    fails: &[u64],
    most: usize,
) -> Result<MemSource, AllocError> {
    let bytes = Vec::from_slice(alloc, bytes)?;
    let fails = Vec::from_slice(alloc, fails)?;
    Ok(MemSource::new(bytes, fails, most))
}

fn sink(alloc: Global, room: usize, fails: &[u64]) -> Result<MemSink, AllocError> {
    MemSink::new(alloc, room, Vec::from_slice(alloc, fails)?)
}

/// Runs the verb with the profile, and compares the status, the output and the notes.
fn check(
    rt: &(impl Abort + AllocGlobal),
    verb: &str,
    profile: &str,
    mut from: MemSource,
    mut to: MemSink,
    status: Status,
    output: &str,
    line: &str,
) -> Result<(), AllocError> {
    let alloc = rt.alloc();
    let recode = words(alloc, &[verb, profile])?;
    let mut notes = sink(alloc, 64, &[])?;
    let ended = run(alloc, recode.as_slice(), &mut from, &mut to, &mut notes);
    assert!(rt; ended == status);
    assert!(rt; to.bytes() == output.as_bytes());
    assert!(rt; notes.bytes() == line.as_bytes());
    Ok(())
}

#[test]
fn each_input_has_its_outcome(rt: HostRuntime) -> Result<(), AllocError> {
    let alloc = rt.alloc();
    for (input, status, output, line) in [
        (b" [ ] ".as_slice(), Status::Ok, "[]\n", ""),
        (b"[\"+07\"]", Status::Ok, "[\"7\"]\n", ""),
        (b"[1]", Status::Refused, "", "refused InvalidType at /0\n"),
        (b"[\"x\"]", Status::Refused, "", "refused Text at /0\n"),
        (
            b"[\"1\",[\"2\"]]",
            Status::Refused,
            "",
            "refused InvalidType at /1\n",
        ),
        (b"[\"1\"", Status::Syntax, "", "syntax\n"),
        (b"[\"1\"] x", Status::Syntax, "", "syntax\n"),
        (b"[\"a\xff", Status::Syntax, "", "syntax\n"),
    ] {
        let from = source(alloc, input, &[], 1)?;
        let to = sink(alloc, 64, &[])?;
        check(&rt, "recode", "ids", from, to, status, output, line)?;
    }
    Ok(())
}

#[test]
fn any_keeps_each_node(rt: HostRuntime) -> Result<(), AllocError> {
    let alloc = rt.alloc();
    let ends = "[340282366920938463463374607431768211455,-170141183460469231731687303715884105728]";
    let map = "{\"a\":1,\"b\":[null,true],\"a\":2}";
    for (input, status, output, line) in [
        (ends, Status::Ok, ends, ""),
        (map, Status::Ok, map, ""),
        ("\"\\u0041\\/\\u001f\"", Status::Ok, "\"A/\\u001f\"", ""),
        (
            "[340282366920938463463374607431768211456]",
            Status::NotWhole,
            "",
            "not whole at 1\n",
        ),
        (
            "[-170141183460469231731687303715884105729]",
            Status::NotWhole,
            "",
            "not whole at 1\n",
        ),
        ("[1.0]", Status::NotWhole, "", "not whole at 1\n"),
        ("[-0]", Status::NotWhole, "", "not whole at 1\n"),
        ("[1e2]", Status::NotWhole, "", "not whole at 1\n"),
        ("[1.0", Status::Syntax, "", "syntax\n"),
        ("\"\\ud800\"", Status::Syntax, "", "syntax\n"),
        ("\"ab", Status::Syntax, "", "syntax\n"),
    ] {
        let from = source(alloc, input.as_bytes(), &[], 7)?;
        let to = sink(alloc, 128, &[])?;
        let mut output = String::from_str(alloc, output)?;
        if status == Status::Ok {
            output.push_str("\n")?;
        }
        check(
            &rt,
            "recode",
            "any",
            from,
            to,
            status,
            output.as_str(),
            line,
        )?;
    }
    Ok(())
}

#[test]
fn each_nest_has_its_outcomes(rt: HostRuntime) -> Result<(), AllocError> {
    let alloc = rt.alloc();
    let table = "{\"1\":[0,1],\"-100\":[255],\"1\":[]}";
    for (profile, input, status, output, line) in [
        ("table", table, Status::Ok, table, ""),
        ("flex", "[\"7\",8,\"009\"]", Status::Ok, "[7,8,9]", ""),
        (
            "flex",
            "[\"x\"]",
            Status::Refused,
            "",
            "refused NoVariant at /0\n",
        ),
        ("flex", "[1.0]", Status::NotWhole, "", "not whole at 1\n"),
        ("flex", "[-0]", Status::NotWhole, "", "not whole at 1\n"),
        ("flex", "[1e2]", Status::NotWhole, "", "not whole at 1\n"),
        ("flex", "[1.0", Status::Syntax, "", "syntax\n"),
        ("names", "\"x\"", Status::Ok, "\"x\"", ""),
        ("names", "[\"x\"]", Status::Ok, "\"x\"", ""),
        ("names", "[]", Status::Ok, "[]", ""),
        (
            "names",
            "\"\\u0041\\/\\u001f\"",
            Status::Ok,
            "\"A/\\u001f\"",
            "",
        ),
        ("names", "\"\\ud800\"", Status::Syntax, "", "syntax\n"),
        ("names", "\"ab", Status::Syntax, "", "syntax\n"),
    ] {
        let from = source(alloc, input.as_bytes(), &[], 7)?;
        let to = sink(alloc, 128, &[])?;
        let mut output = String::from_str(alloc, output)?;
        if status == Status::Ok {
            output.push_str("\n")?;
        }
        check(
            &rt,
            "recode",
            profile,
            from,
            to,
            status,
            output.as_str(),
            line,
        )?;
    }
    Ok(())
}

#[test]
fn settings_are_read_by_name(rt: HostRuntime) -> Result<(), AllocError> {
    let alloc = rt.alloc();
    for (input, status, output, line) in [
        (
            "{\"name\":\"web\",\"ids\":[1,\"2\"],\"limits\":[10,20],\"labels\":{\"b\":\"2\",\"a\":\"1\"},\"extra\":null}",
            Status::Ok,
            "{\"name\":\"web\",\"ids\":[1,2],\"limits\":[10,20],\"labels\":{\"a\":\"1\",\"b\":\"2\"}}\n",
            "",
        ),
        (
            "{\"name\":\"x\",\"ids\":7,\"labels\":{}}",
            Status::Ok,
            "{\"name\":\"x\",\"ids\":7,\"limits\":null,\"labels\":{}}\n",
            "",
        ),
        (
            "{\"ids\":7}",
            Status::Refused,
            "",
            "refused MissingField at /\n",
        ),
        (
            "{\"name\":\"x\",\"name\":\"y\"}",
            Status::Refused,
            "",
            "refused DuplicateField at /1k\n",
        ),
    ] {
        let from = source(alloc, input.as_bytes(), &[], 7)?;
        let to = sink(alloc, 128, &[])?;
        check(&rt, "recode", "settings", from, to, status, output, line)?;
    }
    Ok(())
}

/// So many maps in one another, each but the innermost with the one name `a`.
fn nested_maps(alloc: Global, levels: usize) -> Result<Vec<u8>, AllocError> {
    let mut text = Vec::new(alloc);
    for _ in 1..levels {
        text.extend_from_slice(b"{\"a\":")?;
    }
    text.extend_from_slice(b"{}")?;
    for _ in 1..levels {
        text.push(b'}')?;
    }
    Ok(text)
}

#[test]
fn what_is_wrapped_has_one_level_more(rt: HostRuntime) -> Result<(), AllocError> {
    let alloc = rt.alloc();
    for (levels, status, line) in [
        (127, Status::Ok, ""),
        (128, Status::Unwritable, "unwritable TooDeep\n"),
    ] {
        let text = nested_maps(alloc, levels)?;
        let mut output = String::new(alloc);
        if let Ok(inner) = std::str::from_utf8(text.as_slice())
            && status == Status::Ok
        {
            output.push_str("[")?;
            output.push_str(inner)?;
            output.push_str("]\n")?;
        }
        let from = source(alloc, text.as_slice(), &[], 100)?;
        let to = sink(alloc, 2048, &[])?;
        check(
            &rt,
            "recode",
            "wrap",
            from,
            to,
            status,
            output.as_str(),
            line,
        )?;
    }
    Ok(())
}

#[test]
fn each_front_of_a_text_is_a_syntax_error(rt: HostRuntime) -> Result<(), AllocError> {
    let alloc = rt.alloc();
    let text = "{\"a\":[1,\"é\"],\"b\":null}".as_bytes();
    for length in 0..text.len() {
        let from = source(alloc, &text[..length], &[], 64)?;
        let to = sink(alloc, 64, &[])?;
        check(
            &rt,
            "recode",
            "any",
            from,
            to,
            Status::Syntax,
            "",
            "syntax\n",
        )?;
    }
    Ok(())
}

/// So many lists in one another.
fn nested(alloc: Global, levels: usize) -> Result<Vec<u8>, AllocError> {
    let mut text = vec![in alloc; b'['; levels]?;
    text.resize(2 * levels, b']')?;
    Ok(text)
}

#[test]
fn lists_have_at_most_128_levels(rt: HostRuntime) -> Result<(), AllocError> {
    let alloc = rt.alloc();
    let recode = words(alloc, &["recode", "any"])?;
    for (levels, status, line) in [
        (128, Status::Ok, ""),
        (129, Status::TooDeep, "too deep at 128\n"),
        (1_000_000, Status::TooDeep, "too deep at 128\n"),
    ] {
        let mut from = SureSource::new(nested(alloc, levels)?);
        let mut to = CountSink::new();
        let mut notes = sink(alloc, 64, &[])?;
        let ended = run(alloc, recode.as_slice(), &mut from, &mut to, &mut notes);
        assert!(rt; ended == status);
        assert!(rt; notes.bytes() == line.as_bytes());
        assert!(rt; status != Status::Ok || to.count() == 2 * 128 + 1);
    }
    Ok(())
}

#[test]
fn each_fault_has_its_outcome(rt: HostRuntime) -> Result<(), AllocError> {
    let alloc = rt.alloc();
    for (source_fails, room, sink_fails, status, output, line) in [
        (1, 64, 0, Status::ReadFault, "", "read fault\n"),
        (3, 64, 0, Status::ReadFault, "", "read fault\n"),
        (0, 64, 1, Status::WriteFault, "", "write fault\n"),
        (0, 4, 0, Status::WriteFault, "[\"12", "write fault\n"),
    ] {
        let from = source(alloc, b"[\"12\"]", &[source_fails], 2)?;
        let to = sink(alloc, room, &[sink_fails])?;
        check(&rt, "recode", "ids", from, to, status, output, line)?;
    }
    Ok(())
}

#[test]
fn the_check_comes_before_the_input(rt: HostRuntime) -> Result<(), AllocError> {
    let alloc = rt.alloc();
    for (verb, profile, status, output, line) in [
        ("check", "ids", Status::Ok, "exact\n", ""),
        ("check", "any", Status::Ok, "exact\n", ""),
        ("check", "table", Status::Ok, "exact\n", ""),
        ("check", "flex", Status::Ok, "exact\n", ""),
        ("check", "names", Status::Ok, "exact\n", ""),
        ("check", "wrap", Status::Ok, "exact\n", ""),
        ("check", "settings", Status::Ok, "exact\n", ""),
        ("check", "lists", Status::Blamed, "", "blamed S3 at /\n"),
        ("check", "keys", Status::Blamed, "", "blamed S1 at /0/0\n"),
        ("recode", "lists", Status::Blamed, "", "blamed S3 at /\n"),
        ("recode", "keys", Status::Blamed, "", "blamed S1 at /0/0\n"),
    ] {
        let from = source(alloc, b"{", &[1], 1)?;
        let to = sink(alloc, 64, &[])?;
        check(&rt, verb, profile, from, to, status, output, line)?;
    }
    Ok(())
}

#[test]
fn words_that_are_no_command_read_nothing(rt: HostRuntime) -> Result<(), AllocError> {
    let alloc = rt.alloc();
    for line in [
        [].as_slice(),
        &["recode", "nothing"],
        &["demo", "100001"],
        &["recode", "ids", "more"],
    ] {
        let words = words(alloc, line)?;
        let mut from = source(alloc, b"[]", &[], 0)?;
        let mut to = sink(alloc, 64, &[])?;
        let mut notes = sink(alloc, 64, &[])?;
        let ended = run(alloc, words.as_slice(), &mut from, &mut to, &mut notes);
        assert!(rt; ended == Status::Usage);
        assert!(rt; to.bytes().is_empty());
        let usage = b"usage: recode P, check P, schema P or demo N\n";
        assert!(rt; notes.bytes() == usage.as_slice());
        let mut buffer = [0u8; 2];
        assert!(rt; from.read(&mut buffer) == Ok(1));
        assert!(rt; from.read(&mut buffer) == Ok(1));
        assert!(rt; from.read(&mut buffer) == Ok(0));
    }
    Ok(())
}

#[test]
fn input_of_the_limit_is_too_long(rt: HostRuntime) -> Result<(), AllocError> {
    let alloc = rt.alloc();
    let recode = words(alloc, &["recode", "ids"])?;
    for (length, status, front) in [
        (LIMIT, Status::TooLong, "too"),
        (LIMIT - 1, Status::Syntax, "syn"),
    ] {
        let mut from = SureSource::new(vec![in alloc; b' '; length]?);
        let mut to = CountSink::new();
        let mut notes = sink(alloc, 3, &[])?;
        let ended = run(alloc, recode.as_slice(), &mut from, &mut to, &mut notes);
        assert!(rt; ended == status, "{front}");
        assert!(rt; to.count() == 0, "{front}");
        assert!(rt; notes.bytes() == front.as_bytes(), "{front}");
    }
    Ok(())
}

/// Whether the bytes spell a tree that has a node of that number.
fn has_node(alloc: Global, bytes: &[u8], number: usize) -> Result<bool, AllocError>
    ensures { IfOk result (λ has. has ≡ true → HasNode bytes.now number) }
{
    match JsonWire::read_tree(alloc, bytes) {
        Ok(doc) => Ok(path_of(alloc, doc.view(), number)?.is_some()),
        Err(_) => Ok(false),
    }
}

#[test]
fn what_is_passed_over_is_told_in_order(rt: HostRuntime) -> Result<(), AllocError> {
    let alloc = rt.alloc();
    let bytes = b"[1,\"x\",300,2]";
    assert!(rt; has_node(alloc, bytes, 2)?);
    assert!(rt; has_node(alloc, bytes, 3)?);
    let mut log = Skipped::new(alloc);
    log.push(Refusal {
        error: DeError::InvalidType(Kind::Text),
        place: 2,
    })?;
    log.push(Refusal {
        error: DeError::InvalidValue,
        place: 3,
    })?;
    let told = log_text(alloc, bytes, log.notes())?;
    assert!(rt; told.as_str() == "2: InvalidType at /1 InvalidValue at /2");
    let mut notes = sink(alloc, 64, &[])?;
    assert!(rt; report(&mut notes, &Outcome::Done(told)) == Status::Ok);
    let line = b"skipped 2: InvalidType at /1 InvalidValue at /2\n";
    assert!(rt; notes.bytes() == line.as_slice());
    Ok(())
}

#[test]
fn each_nest_has_its_schema(rt: HostRuntime) -> Result<(), AllocError> {
    let alloc = rt.alloc();
    for (profile, output) in [
        (
            "ids",
            "{\"type\":\"array\",\"items\":{\"type\":\"string\"}}\n",
        ),
        ("any", "true\n"),
        (
            "table",
            "{\"type\":\"object\",\"additionalProperties\":{\"type\":\"array\",\"items\":{\"type\":\"integer\",\"minimum\":0,\"maximum\":255}}}\n",
        ),
        (
            "flex",
            "{\"type\":\"array\",\"items\":{\"anyOf\":[{\"type\":\"integer\",\"minimum\":0,\"maximum\":4294967295},{\"writeOnly\":true,\"allOf\":[{\"type\":\"string\"}]}]}}\n",
        ),
        (
            "names",
            "{\"anyOf\":[{\"type\":\"string\"},{\"type\":\"array\",\"items\":{\"type\":\"string\"}}]}\n",
        ),
        (
            "lists",
            "{\"anyOf\":[{\"type\":\"array\",\"items\":{\"type\":\"integer\",\"minimum\":0,\"maximum\":255}},{\"type\":\"array\",\"items\":{\"type\":\"array\",\"items\":{\"type\":\"integer\",\"minimum\":0,\"maximum\":255}}}]}\n",
        ),
        (
            "keys",
            "{\"type\":\"object\",\"additionalProperties\":{\"type\":\"boolean\"}}\n",
        ),
        (
            "wrap",
            "{\"anyOf\":[{\"writeOnly\":true,\"allOf\":[{\"type\":\"object\",\"additionalProperties\":true}]},{\"type\":\"array\",\"items\":{\"type\":\"object\",\"additionalProperties\":true}}]}\n",
        ),
        (
            "settings",
            "{\"type\":\"object\",\"properties\":{\"name\":{\"type\":\"string\"},\"ids\":{\"anyOf\":[{\"anyOf\":[{\"type\":\"integer\",\"minimum\":0,\"maximum\":4294967295},{\"writeOnly\":true,\"allOf\":[{\"type\":\"string\"}]}]},{\"type\":\"array\",\"items\":{\"anyOf\":[{\"type\":\"integer\",\"minimum\":0,\"maximum\":4294967295},{\"writeOnly\":true,\"allOf\":[{\"type\":\"string\"}]}]}}]},\"limits\":{\"anyOf\":[{\"type\":\"array\",\"prefixItems\":[{\"type\":\"integer\",\"minimum\":0,\"maximum\":4294967295},{\"type\":\"integer\",\"minimum\":0,\"maximum\":4294967295}],\"minItems\":2,\"maxItems\":2},{\"type\":\"null\"}]},\"labels\":{\"type\":\"object\",\"additionalProperties\":{\"type\":\"string\"}}},\"required\":[\"name\",\"ids\",\"labels\"]}\n",
        ),
    ] {
        // neither a byte of the source is taken, nor its first failure
        let from = source(alloc, b"[", &[0], 1)?;
        let to = sink(alloc, 1024, &[])?;
        check(&rt, "schema", profile, from, to, Status::Ok, output, "")?;
    }
    Ok(())
}
