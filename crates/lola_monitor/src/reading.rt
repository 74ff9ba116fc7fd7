//! Texts, read whole.
ghost use Rattle.std.specs.Prelude.{◌≡◌, ◌<◌, ◌≤◌, ◌^◌, [], length, List, ℕ, Some, IfOk, IsErrOf, OnOk, vec_len};
ghost use Rattle.std.specs.Io.KnownBytes.{IsAtEnd};
ghost use Rattle.lola_port.specs.States.{Rose};
ghost use Rattle.lola_monitor.specs.Outcomes.{AppendsRead, IsReadFront, Marred, Stopped, noted};
ghost use Rattle.lola_monitor.specs.Replaying.{IsText};

use lola_port::{FetchEnd, Shelf, Source};
use std::alloc::Global;

// How many bytes are asked for at once.
const PIECE: usize = 65536;

/// The most bytes of a text: what a source has at most.
const MOST_BYTES: usize = 4_611_686_018_427_387_904;

// Reads once, and appends what came; tells how many bytes that were.
fn read_more<S: Source>(
    source: &mut S,
    piece: &mut [u8],
    bytes: &mut Vec<u8>,
) -> Result<usize, FetchEnd>
    ensures moved { IfOk result (λ count. AppendsRead count bytes.old.items bytes.new.items (S.state source.old) (S.state source.new)) }
    ensures within { IfOk result (λ count. count ≤ length piece.new) }
    ensures end { IfOk result (λ count. count ≡ 0 → 0 < length piece.new → IsAtEnd (S.state source.new).left) }
    ensures failed { IsErrOf result FetchEnd.Failed → Rose (S.state source.old).count (S.state source.new).count }
    ensures place { (S.state source.new).place ≡ (S.state source.old).place }
{
    let Ok(count) = source.read(piece) else {
        return Err(FetchEnd::Failed);
    };
    if bytes.extend_from_slice(&piece[..count]).is_err() {
        return Err(FetchEnd::Memory);
    }
    Ok(count)
}

// Appends all bytes that are left of a source, or so many of them that there are one more than `most`.
fn read_up_to<S: Source>(
    source: &mut S,
    piece: &mut [u8],
    most: usize,
    bytes: &mut Vec<u8>,
) -> Result<(), FetchEnd>
    requires most { most < 2 ^ 63 }
    requires piece { 0 < length piece.old }
    requires none { bytes.old.items ≡ [] }
    ensures bytes { OnOk result ((all : List ℕ) → (S.state source.old).left ≡ Some all → IsReadFront most bytes.new.items all) }
    ensures count { OnOk result ((S.state source.new).count ≡ (S.state source.old).count) }
    ensures failed { IsErrOf result FetchEnd.Failed → Rose (S.state source.old).count (S.state source.new).count }
    ensures place { (S.state source.new).place ≡ (S.state source.old).place }
{
    while bytes.len() <= most {
        let room = (most + 1 - bytes.len()).min(piece.len());
        if read_more(source, &mut piece[..room], bytes)? == 0 {
            return Ok(());
        }
    }
    Ok(())
}

// The same of a source, with the memory that it takes.
fn read_all<S: Source>(alloc: Global, source: &mut S, most: usize) -> Result<Vec<u8>, FetchEnd>
    requires { most < 2 ^ 63 }
    ensures bytes { IfOk result (λ bytes. (all : List ℕ) → (S.state source.old).left ≡ Some all → IsReadFront most bytes.items all) }
    ensures count { OnOk result ((S.state source.new).count ≡ (S.state source.old).count) }
    ensures failed { IsErrOf result FetchEnd.Failed → Rose (S.state source.old).count (S.state source.new).count }
    ensures place { (S.state source.new).place ≡ (S.state source.old).place }
{
    let mut bytes = Vec::new(alloc);
    let Ok(mut piece) = vec![in alloc; 0u8; PIECE] else {
        return Err(FetchEnd::Memory);
    };
    read_up_to(source, &mut piece, most, &mut bytes)?;
    Ok(bytes)
}

/// Fetches a name, reads all its bytes or one more than so many, and gives the source back.
pub fn read_name<F: Shelf>(
    alloc: Global,
    shelf: &mut F,
    name: &str,
    most: usize,
) -> Result<Vec<u8>, FetchEnd>
    requires out { (F.state shelf.old).out < 65536 }
    requires most { most < 2 ^ 63 }
    ensures bytes { IfOk result (λ bytes. (all : List ℕ) → (F.state shelf.old).told name.now ≡ Some all → IsReadFront most bytes.items all) }
    ensures noted { OnOk result (F.state shelf.new ≡ noted (F.state shelf.old) name.now) }
    ensures failed { IsErrOf result FetchEnd.Failed → Marred name.now (F.state shelf.old) (F.state shelf.new) }
    ensures memory { IsErrOf result FetchEnd.Memory → Stopped name.now (F.state shelf.old) (F.state shelf.new) }
{
    let mut file = shelf.fetch(name)?;
    let bytes = read_all(alloc, &mut file, most);
    shelf.give_back(file);
    bytes
}

/// Fetches a text, reads all its bytes, and gives the source back.
pub fn read_text<F: Shelf>(alloc: Global, shelf: &mut F, name: &str) -> Result<Vec<u8>, FetchEnd>
    requires { (F.state shelf.old).out < 65536 }
    ensures few { IfOk result (λ text. vec_len text < 2 ^ 63) }
    ensures text { IfOk result (λ text. IsText ((F.state shelf.old).told name.now) text.items) }
    ensures noted { OnOk result (F.state shelf.new ≡ noted (F.state shelf.old) name.now) }
    ensures failed { IsErrOf result FetchEnd.Failed → Marred name.now (F.state shelf.old) (F.state shelf.new) }
    ensures memory { IsErrOf result FetchEnd.Memory → Stopped name.now (F.state shelf.old) (F.state shelf.new) }
{
    let bytes = read_name(alloc, shelf, name, MOST_BYTES)?;
    if bytes.len() > MOST_BYTES {
        return Err(FetchEnd::Memory);
    }
    Ok(bytes)
}
