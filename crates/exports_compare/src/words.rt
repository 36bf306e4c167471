// How a stream's reader passes: as its eight words.
ghost use Rattle.std.specs.Prelude.{◌≡◌};
ghost use Rattle.exports_session.specs.Words.{reader_of};
ghost use Rattle.exports_compare.specs.Words.{reader_words};

use stream_reader::Reader;

// A reader out of its words.
pub fn reader_of(words: &[usize; 8]) -> Reader
    ensures { result ≡ reader_of words.now }
{
    Reader {
        offset: words[0],
        taken: words[1],
        length: words[2],
        kind: words[3],
        checks: words[4],
        mechanisms: words[5],
        edges: words[6],
        degrees: words[7],
    }
}

// A reader's words, written.
pub fn put_reader(r: Reader, words: &mut [usize; 8])
    ensures { words.new ≡ reader_words r }
{
    *words = [
        r.offset,
        r.taken,
        r.length,
        r.kind,
        r.checks,
        r.mechanisms,
        r.edges,
        r.degrees,
    ];
}
