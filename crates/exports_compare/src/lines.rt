// The lines of `shots`. A bool passes as a byte that is not 0.
ghost use Rattle.std.specs.Prelude.{◌≡◌, length};
ghost use Rattle.numbers.specs.Loops.{over};
ghost use Rattle.stream_lines.specs.Lines.{shot_line, refused_line, stopped_line, end_line, unless_too_long};
ghost use Rattle.exports_session.specs.Words.{is_set};

// `stream_lines::shot_line`.
#[unsafe(no_mangle)]
pub extern "C" fn chowderkite_shot_line(
    number: usize,
    converged: u8,
    total: usize,
    legs: usize,
    bits: &[u8],
    line: &mut [u8; 512],
) -> usize
    ensures said { result ≡ length (unless_too_long bits.now (shot_line number (is_set converged) total legs bits.now)) }
    ensures line { let said = unless_too_long bits.now (shot_line number (is_set converged) total legs bits.now) in
        line.new ≡ over said line.old }
{
    stream_lines::shot_line(number, converged != 0, total, legs, bits, line)
}

// `stream_lines::refused_line`.
#[unsafe(no_mangle)]
pub extern "C" fn chowderkite_refused_line(
    number: usize,
    code: usize,
    line: &mut [u8; 512],
) -> usize
    ensures { (result ≡ length (refused_line number code)) × (line.new ≡ over (refused_line number code) line.old) }
{
    stream_lines::refused_line(number, code, line)
}

// `stream_lines::stopped_line`.
#[unsafe(no_mangle)]
pub extern "C" fn chowderkite_stopped_line(
    code: usize,
    offset: usize,
    line: &mut [u8; 512],
) -> usize
    ensures { (result ≡ length (stopped_line code offset)) × (line.new ≡ over (stopped_line code offset) line.old) }
{
    stream_lines::stopped_line(code, offset, line)
}

// `stream_lines::end_line`.
#[unsafe(no_mangle)]
pub extern "C" fn chowderkite_end_line(shots: usize, line: &mut [u8; 512]) -> usize
    ensures { (result ≡ length (end_line shots)) × (line.new ≡ over (end_line shots) line.old) }
{
    stream_lines::end_line(shots, line)
}
