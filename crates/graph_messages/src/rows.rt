// One side of a graph: the variables of its checks, or the messages of its variables.
ghost use Rattle.std.specs.Prelude.{◌≡◌, ◌≤◌, suc, ◌<◌, length, get_or};
ghost use Rattle.numbers.specs.Loops.{row};
ghost use Rattle.graph_messages.specs.Needs.{Walks};

use graph_lists::indices::at;

// Of each row a part of the entries, each of which names one of n and is above the one before it.
#[derive(Clone, Copy)]
pub struct Rows<'a> {
    pub rows: usize,
    pub n: usize,
    pub entries: &'a [u32],
    pub offsets: &'a [u32],
    ghost walks: { Walks rows n entries.now offsets.now },
}

impl<'a> Rows<'a> {
    // Where a row's entries begin.
    pub fn start(&self, r: usize) -> usize
        requires { r < self.now.rows }
        ensures value { result ≡ get_or self.now.offsets.now r 0 }
        ensures within { result ≤ get_or self.now.offsets.now (suc r) 0 }
    {
        at(self.offsets, r)
    }

    // Where they end.
    pub fn end(&self, r: usize) -> usize
        requires { r < self.now.rows }
        ensures value { result ≡ get_or self.now.offsets.now (suc r) 0 }
        ensures within { result ≤ length self.now.entries.now }
    {
        at(self.offsets, r + 1)
    }

    // A row's entries.
    pub fn row(&self, r: usize) -> &'a [u32]
        requires { r < self.now.rows }
        ensures { result.now ≡ row self.now.offsets.now r self.now.entries.now }
    {
        &self.entries[self.start(r)..self.end(r)]
    }
}
