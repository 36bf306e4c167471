// Inner: how a session of `shots` passes through the C calling convention, for `exports_bodies` alone: as words and floats in lists of
// fixed length.
#![tactic(auto)]

ghost use Rattle.std.specs.Prelude.{◌≡◌};
ghost use Rattle.exports_session.specs.Words.{sets_word, session_of, session_words, session_floats};

use exports_values::answers::bit;
use exports_values::given::settings_of;
use exports_values::told::{byte_of, clip_byte, clip_float, source_byte};
use relay_settings::GammaSource;
use stream_reader::Reader;
use stream_session::{Known, Session};

// How many sets a source has.
fn sets_word(source: GammaSource) -> usize
    ensures { result ≡ sets_word source }
{
    match source {
        GammaSource::Seeded(_) => 0,
        GammaSource::Explicit(sets) => sets,
    }
}

// A session out of its words and floats.
pub fn session_of(words: &[usize; 22], floats: &[f64; 5]) -> Session
    ensures { result ≡ session_of words.now floats.now }
{
    let settings = settings_of(
        words[14], floats[0], words[21], floats[4], floats[1], words[15], words[16], words[17],
        floats[2], floats[3], words[18], words[19], words[20],
    );
    Session {
        reader: Reader {
            offset: words[0],
            taken: words[1],
            length: words[2],
            kind: words[3],
            checks: words[4],
            mechanisms: words[5],
            edges: words[6],
            degrees: words[7],
        },
        known: Known {
            model_length: words[8],
            has_model: words[9] != 0,
            settings: settings,
            has_settings: words[10] != 0,
        },
        shots: words[11],
        stopped: words[12] != 0,
        said: words[13],
    }
}

// A session's words and floats, written.
pub fn put_session(s: Session, words: &mut [usize; 22], floats: &mut [f64; 5])
    ensures words { words.new ≡ session_words s }
    ensures floats { floats.new ≡ session_floats s }
{
    let r = s.reader;
    let k = s.known;
    let t = k.settings;
    let schedule = t.schedule;
    let clip = t.clip;
    let source = t.gamma_source;
    *words = [
        r.offset,
        r.taken,
        r.length,
        r.kind,
        r.checks,
        r.mechanisms,
        r.edges,
        r.degrees,
        k.model_length,
        bit(k.has_model) as usize,
        bit(k.has_settings) as usize,
        s.shots,
        bit(s.stopped) as usize,
        s.said,
        byte_of(schedule) as usize,
        t.pre_iterations,
        t.num_legs,
        t.leg_iterations,
        t.stop_after_converged,
        source_byte(source) as usize,
        sets_word(source),
        clip_byte(clip) as usize,
    ];
    *floats = [
        t.alpha,
        t.gamma0,
        t.gamma_low,
        t.gamma_high,
        clip_float(clip),
    ];
}
