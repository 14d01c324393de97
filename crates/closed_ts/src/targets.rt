//! Which timestamps a range closes.

ghost use Rattle.std.specs.Prelude.{◌≡◌, ◌+◌, ◌<◌, ◌^◌};
ghost use Rattle.closed_ts.specs.Targets.{close_target};

use mr_base::{Reading, Settings, Ts};

/// The timestamp that the leaseholder of a range closes at this reading of its clock: `lag` milliseconds
/// behind it, not below 0, and for a global range `lead` milliseconds ahead of it.
pub fn target(global: bool, clock: Reading, s: &Settings) -> Ts
    requires { clock.wall + s.now.lead < 2 ^ 64 }
    ensures { result ≡ close_target global clock s.now }
{
    let wall = if global {
        clock.wall + s.lead
    } else {
        clock.wall.saturating_sub(s.lag)
    };
    Ts { wall, ..Ts::ZERO }
}
