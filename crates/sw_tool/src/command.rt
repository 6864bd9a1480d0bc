ghost use Rattle.std.specs.Prelude.{◌≡◌, map, string_bytes};
ghost use Rattle.sw_tool.specs.Command.{command_in, command_of_two, profile_named};

/// A nest of adapters with its value, by its name.
#[derive(Clone, Copy, PartialEq, Eq)]
pub enum Profile {
    /// `Vec<DisplayFromStr>` of `Vec<u32>`: a list of texts that spell numbers.
    Ids,
    /// `Same` of `Any`: whatever a JSON text may say.
    Any,
    /// `Map<DisplayFromStr, Vec<Same>>` of `Vec<(i32, Vec<u8>)>`: a table of lists of bytes.
    Table,
    /// `Vec<PickFirst<(Same, DisplayFromStr)>>` of `Vec<u32>`: numbers, or texts that spell them.
    Flex,
    /// `OneOrMany<Same, PreferOne>` of `Vec<String>`: a text, or a list of texts.
    Names,
    /// `OneOrMany<Vec<Same>, PreferOne>` of `Vec<Vec<u8>>`: a list of bytes, or a list of such lists.
    Lists,
    /// `Map<PickFirst<(Same, Same)>, Same>` of `Vec<(u32, bool)>`: a map from numbers that were set
    /// aside, which as keys of JSON are none.
    Keys,
    /// `OneOrMany<Map<Same, Same>, PreferMany>` of `Vec<Vec<(String, Any)>>`: a map, or a list of maps.
    Wrap,
    /// `SettingsAs` of `Settings`: a record of a name, ids, limits and labels.
    Settings,
}

/// What the program is to do.
#[derive(Clone, Copy, PartialEq, Eq)]
pub enum Command {
    /// Read the input through the profile's nest, and write it anew.
    Recode(Profile),
    /// Say how faithful the profile's nest is.
    Check(Profile),
    /// Write the schema of what the profile's nest writes.
    Schema(Profile),
}

/// The profile of that name.
fn profile_of(word: &str) -> Option<Profile>
    ensures { result ≡ profile_named word.now }
{
    match word {
        "ids" => Some(Profile::Ids),
        "any" => Some(Profile::Any),
        "table" => Some(Profile::Table),
        "flex" => Some(Profile::Flex),
        "names" => Some(Profile::Names),
        "lists" => Some(Profile::Lists),
        "keys" => Some(Profile::Keys),
        "wrap" => Some(Profile::Wrap),
        "settings" => Some(Profile::Settings),
        _ => None,
    }
}

/// The command that a verb and its argument are.
fn command_of_two(verb: &str, argument: &str) -> Option<Command>
    ensures { result ≡ command_of_two verb.now argument.now }
{
    match verb {
        "recode" => profile_of(argument).map(Command::Recode),
        "check" => profile_of(argument).map(Command::Check),
        "schema" => profile_of(argument).map(Command::Schema),
        _ => None,
    }
}

/// The command that the words are, if they are one. It takes no memory.
pub fn command_of(words: &[String]) -> Option<Command>
    ensures { result ≡ command_in (map (λ w. string_bytes w) words.now) }
{
    match words {
        [verb, argument] => command_of_two(verb.as_str(), argument.as_str()),
        _ => None,
    }
}
