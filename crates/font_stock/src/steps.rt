//! Whole steps of expansion (pdfTeX manual, `\pdffontexpand`).
ghost use Rattle.std.specs.Prelude.{◌≡◌, ◌≤◌, ◌<◌, ◌*◌, ◌%◌};
ghost use Rattle.micro_num.specs.Rounding.{nearest};

/// The ratio's share of a limit, in the nearest whole number of steps.
pub fn whole_steps(ratio: u32, factor: u16, limit: u16, step: u16) -> u32
    requires ratio { ratio ≤ 1000 }
    requires factor { factor ≤ 1000 }
    requires limit { limit ≤ 1000 }
    requires whole { limit % step ≡ 0 }
    requires some { 0 < step }
    ensures exact { result ≡ nearest (nearest (ratio * factor * limit) 1000000) step * step }
    ensures within { result ≤ limit }
    ensures multiple { result % step ≡ 0 }
{
    let share = (ratio * factor as u32 * limit as u32 + 500000) / 1000000;
    let step = step as u32;
    (2 * share + step) / (2 * step) * step
}
