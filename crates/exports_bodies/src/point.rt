// The published operating point: five floats (alpha, gamma0, the interval's ends, the clip's magnitude) and six counts
// (pre_iterations, num_legs, leg_iterations, stop_after_converged, whether the clip is on, the source's byte). The answer is the byte of
// its schedule.
ghost use Rattle.std.specs.Prelude.{◌≡◌};
ghost use Rattle.relay_settings.specs.Settings.{published as published_of};
ghost use Rattle.exports_values.specs.Codes.{byte_of, floats_in, counts_in};

use exports_values::told::tell_settings;
use relay_settings::Settings;

// `relay_settings::Settings::published`.
pub fn published(floats: &mut [f64; 5], counts: &mut [u64; 6]) -> u8
    ensures schedule { result ≡ byte_of published_of.schedule }
    ensures floats { floats.new ≡ floats_in published_of }
    ensures counts { counts.new ≡ counts_in published_of }
{
    tell_settings(Settings::published(), floats, counts)
}
