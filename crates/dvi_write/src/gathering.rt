//! Bytes that are gathered before they are put: to put each by itself takes much longer. They stand
//! in front of an array, and how many there are is a number beside it.
ghost use Rattle.std.specs.Prelude.{◌≡◌, ◌+◌, ◌≤◌, ◌++◌, length, take, IfOk};
ghost use Rattle.dvi_write.specs.Output.{grown};

use crate::output::Output;
use micro_num::NoMemory;

/// Gathers more bytes behind so many, and gives how many there are then.
#[inline(always)]
pub(crate) fn gather(gathered: &mut [u8; 64], count: usize, more: &[u8]) -> usize
    requires { count + length more.now ≤ 64 }
    ensures bytes { take result gathered.new ≡ take count gathered.old ++ more.now }
    ensures count { result ≡ count + length more.now }
{
    let mut count = count;
    for byte in more {
        gathered[count] = *byte;
        count += 1;
    }
    count
}

/// Puts the bytes gathered where another glyph might not have room behind them: a move and a code
/// are at most seven bytes. It gives how many are left.
#[inline(always)]
#[tactic(auto, using(crate::proofs::Grown::grown_nothing))]
pub(crate) fn make_room(
    out: &mut Output,
    gathered: &[u8; 64],
    count: usize,
) -> Result<usize, NoMemory>
    requires { count ≤ 64 }
    ensures bytes { IfOk result (λ left.
        grown out.new (take left gathered.now) ≡ grown out.old (take count gathered.now)) }
    ensures room { IfOk result (λ left. left ≤ 57) }
{
    if count <= 57 {
        return Ok(count);
    }
    out.put(&gathered[..count])?;
    Ok(0)
}
