ghost use Rattle.std.specs.Prelude.{◌≡◌, ◌<◌, ◌≤◌, map, length, take, IfOk, MatchResult};
ghost use Rattle.size.specs.Answers.{on_ok};
ghost use Rattle.area.specs.Areas.{corners};
ghost use Rattle.area.specs.Grids.{even_answer, even_cut, even_into};
ghost use Rattle.area.specs.Tilings.{EvenTiling};

use crate::Area;
use crate::cells::{Parts, write_cells};
use crate::side::Side;
use size::refusal::Refusal;

// A side in so many even parts, at most 1,000.
#[derive(Clone, Copy)]
struct EvenParts {
    side: Side,
    count: usize,
    ghost few: { count ≤ 1000 },
}

impl EvenParts {
    // Refused where there would be over 1,000 parts.
    fn new(side: Side, count: usize) -> Result<EvenParts, Refusal>
        ensures { MatchResult result (λ e. (e.side ≡ side) × (e.count ≡ count)) (λ e. (e ≡ Refusal.Range) × (1000 < count)) }
    {
        if count > 1000 {
            return Err(Refusal::Range);
        }
        Ok(EvenParts { side, count })
    }

    // Where part `idx` begins, and the one before it ends.
    fn start(&self, idx: usize) -> i32
        requires { (0 < self.now.count) × (idx ≤ self.now.count) }
        ensures { result ≡ even_cut self.now.side.from self.now.side.to self.now.count idx }
    {
        let (size, n) = (self.side.length() as usize, self.count);
        self.side.from + (idx * (size / n) + idx.min(size % n)) as i32
    }
}

impl Parts for EvenParts {
    ghost cut = { λ e. even_cut e.side.from e.side.to e.count };

    ghost count = { λ e. e.count };

    fn count(&self) -> usize {
        self.count
    }

    fn part(&self, idx: usize) -> Side {
        Side {
            from: self.start(idx),
            to: self.start(idx + 1),
        }
    }
}

impl Area {
    /// Cuts the area into `grid.0` rows and `grid.1` columns and writes the cells to `out`, row by row.
    /// Answers how many there are; refused with 1 where a count is over 1,000, with 9 where `out` is too short.
    #[tactic(auto, using(crate::proofs::Tiled::evenly_law))]
    pub fn split_evenly(&self, grid: (usize, usize), out: &mut [Area]) -> Result<usize, Refusal>
        ensures answer { result ≡ even_answer grid.0 grid.1 (length out.old) }
        ensures after { map corners out.new ≡ on_ok result (even_into (corners self.now) grid.0 grid.1 (map corners out.old)) (map corners out.old) }
        ensures law { IfOk result (λ n. EvenTiling (corners self.now) grid.0 grid.1 (take n (map corners out.new))) }
    {
        let columns = EvenParts::new(self.across, grid.1)?;
        let rows = EvenParts::new(self.down, grid.0)?;
        write_cells(&columns, &rows, out)
    }
}
