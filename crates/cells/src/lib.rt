// Heights and the sizes that they give. Every function takes any numbers: where there is no such height, level or cell, the answer is 0.
#![tactic(auto)]

ghost use Rattle.std.specs.Prelude.{◌≡◌};
ghost use Rattle.rules.specs.Cells.{is_height, width, word_limit, level_one_size, stage_size, row_at, position, rooms};
ghost use Rattle.cells.specs.Answers.{height_of, or_zero, has_level, has_cell};

// The height K of a stage.
#[derive(Clone, Copy)]
pub struct Height(pub u32);

impl Height {
    pub const LEAST: u32 = 6;

    pub const GREATEST: u32 = 13;

    pub fn new(k: u32) -> Option<Height>
        ensures { result ≡ height_of k }
    {
        if is_height(k) { Some(Height(k)) } else { None }
    }

    // The cells of level 0.
    pub fn width(self) -> usize
        ensures { result ≡ or_zero (is_height self.0) (width self.0) }
    {
        let k = self.0;
        if is_height(k) { 1usize << k } else { 0 }
    }

    // The cells of level 1.
    pub fn level_one_size(self) -> usize
        ensures { result ≡ or_zero (is_height self.0) (level_one_size self.0) }
    {
        let k = self.0;
        if is_height(k) { 1usize << (k - 1) } else { 0 }
    }

    // The word limit W.
    pub fn word_limit(self) -> usize
        ensures { result ≡ or_zero (is_height self.0) (word_limit self.0) }
    {
        let k = self.0;
        if is_height(k) { 1usize << (k - 5) } else { 0 }
    }

    // The numbers of a stage.
    pub fn stage_size(self) -> usize
        ensures { result ≡ or_zero (is_height self.0) (stage_size self.0) }
    {
        let k = self.0;
        if is_height(k) { 1usize << (k + 1) } else { 0 }
    }

    // The cells of a level, and the position at which its row begins.
    pub fn row_at(self, level: u32) -> usize
        ensures { result ≡ or_zero (has_level self.0 level) (row_at self.0 level) }
    {
        let k = self.0;
        if has_level(k, level) {
            1usize << (k - level)
        } else {
            0
        }
    }

    // The rooms of a plan area of so many numbers.
    pub fn rooms(self, size: usize) -> usize
        ensures { result ≡ or_zero (is_height self.0) (rooms self.0 size) }
    {
        let each = self.stage_size();
        if each == 0 {
            return 0;
        }
        size / each
    }
}

pub fn is_height(k: u32) -> bool
    ensures { result ≡ is_height k }
{
    Height::LEAST <= k && k <= Height::GREATEST
}

// Does a stage of this height have this level?
pub fn has_level(height: u32, level: u32) -> bool
    ensures { result ≡ has_level height level }
{
    is_height(height) && level <= height
}

// The position of a cell of a level.
pub fn position(height: u32, level: u32, cell: u32) -> usize
    ensures { result ≡ or_zero (has_cell height level cell) (position height level cell) }
{
    let row = Height(height).row_at(level);
    if row <= wide(cell) {
        return 0;
    }
    wide(cell) + row
}

// A number as an index.
pub fn wide(x: u32) -> usize
    ensures { result ≡ x }
{
    x as usize
}
