ghost use Rattle.std.specs.Prelude.{◌≡◌, IfOk, vec_len};
ghost use Rattle.sw_tool.specs.Change.{Change};
ghost use Rattle.sw_tool.specs.Input.{Gives, IsReadAs};

use crate::source::{Failed, Source};
use std::alloc::{AllocError, Global};

/// So many bytes are too many.
pub const LIMIT: usize = 4_194_305;

/// How many bytes a call asks for at most.
const CHUNK: usize = 65_536;

/// Why a source wasn't read to its end.
#[derive(Clone, Copy, PartialEq, Eq)]
pub enum ReadFail {
    /// The source failed.
    Fault,
    /// It gave as many bytes as are too many.
    TooLong,
    /// Memory was wanting.
    Memory,
}

/// All bytes that the source has left: it is read to its end, or until it gave `LIMIT` bytes
/// in this call.
pub fn read_all<S: Source>(alloc: Global, source: &mut S) -> Result<Vec<u8>, ReadFail>
    ensures { let change : Change = record { old = S.left source.old; new = S.left source.new; before = S.faults source.old; after = S.faults source.new } in
        Gives change (IsReadAs result change) }
{
    let Ok(mut chunk) = zeros(alloc, CHUNK) else {
        return Err(ReadFail::Memory);
    };
    let Ok(mut bytes) = Vec::with_capacity(alloc, LIMIT) else {
        return Err(ReadFail::Memory);
    };
    loop {
        let room = LIMIT - bytes.len();
        let part = &mut chunk[..CHUNK.min(room)];
        let count = match source.read(part) {
            Ok(0) => return Ok(bytes),
            Ok(count) => count,
            Err(Failed) => return Err(ReadFail::Fault),
        };
        if count == room {
            return Err(ReadFail::TooLong);
        }
        if bytes.extend_from_slice(&part[..count]).is_err() {
            return Err(ReadFail::Memory);
        }
    }
}

/// A buffer of so many bytes.
fn zeros(alloc: Global, count: usize) -> Result<Vec<u8>, AllocError>
    ensures { IfOk result (λ v. vec_len v ≡ count) }
{
    vec![in alloc; 0; count]
}
