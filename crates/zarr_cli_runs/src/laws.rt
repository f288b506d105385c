//! Laws of what is promised of runs.

ghost use Rattle.zarr_cli_runs.specs.Honest.{HonestIsWithoutDamage};

/// Over an honest store no command sees damage, and what is promised of the store without its damage is promised of it.
pub fn honest_is_without_damage()
    ensures { HonestIsWithoutDamage }
{}
