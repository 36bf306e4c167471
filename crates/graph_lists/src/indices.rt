// Lists of indices: an entry read and set, and all numbered.
ghost use Rattle.std.specs.Prelude.{◌≡◌, ◌<◌, length, get_or, set};
ghost use Rattle.numbers.specs.Loops.{upto};

// An entry.
pub fn at(xs: &[u32], i: usize) -> usize
    requires { i < length xs.now }
    ensures { result ≡ get_or xs.now i 0 }
{
    xs[i] as usize
}

// Sets one.
pub fn put(xs: &mut [u32], i: usize, v: usize)
    requires { (i < length xs.old) × (v < 4294967296) }
    ensures { xs.new ≡ set xs.old i v }
{
    xs[i] = v as u32;
}

// Sets one, unless it lies past the end.
pub fn put_within(xs: &mut [u32], i: usize, v: usize)
    requires { v < 4294967296 }
    ensures { xs.new ≡ set xs.old i v }
{
    if i < xs.len() {
        xs[i] = v as u32;
    }
}

// Each its own place: 0, 1, 2 and so on.
pub fn number(xs: &mut [u32])
    requires { length xs.old < 4294967296 }
    ensures { xs.new ≡ upto (length xs.old) }
{
    for (i, x) in xs.iter_mut().enumerate() {
        *x = i as u32;
    }
}
