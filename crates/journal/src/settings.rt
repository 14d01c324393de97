//! The settings of a cluster that names none.

ghost use Rattle.std.specs.Prelude.{◌≡◌};
ghost use Rattle.journal.specs.Settings.{the_standard_settings};

use mr_base::Settings;

/// The settings where a `cluster` line names none. Source: this project's profile.
pub fn standard_settings() -> Settings
    ensures { result ≡ the_standard_settings }
{
    Settings {
        max_offset: 500,
        lease: 6000,
        lag: 3000,
        lead: 800,
        expire: 5000,
    }
}
