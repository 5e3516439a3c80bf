//! `yl_config`: what a configuration says.

ghost use Rattle.std.specs.Prelude.{◌≡◌, IfOk, Ok, is_some};
ghost use Rattle.yl_config.specs.Outcome.{IsConfigOf};
ghost use Rattle.yl_config.specs.Settings.{Settings};

use std::alloc::Allocator;
use yl_config::{Config, ConfigFault};
use yl_text::RuleId;

/// Whether a rule is on by a configuration of these bytes.
pub fn is_on<A: Allocator + Copy>(alloc: A, bytes: &[u8], rule: RuleId) -> Result<bool, ConfigFault>
    ensures { IfOk result (λ on. (settings : Settings)
        × IsConfigOf bytes.now (Ok settings)
        × (on ≡ is_some (settings.levels rule))) }
{
    let config = Config::read(alloc, bytes)?;
    Ok(config.levels().level_of(rule).is_some())
}
