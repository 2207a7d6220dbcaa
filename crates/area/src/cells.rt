ghost use Rattle.std.specs.Prelude.{◌≡◌, ℕ, ◌+◌, ◌*◌, ◌<◌, ◌≤◌, map, length, take, ℤ, IfOk};
ghost use Rattle.size.specs.Answers.{on_ok};
ghost use Rattle.area.specs.Areas.{corners};
ghost use Rattle.area.specs.Grids.{counted, grid_into, grid_of};

use crate::Area;
use crate::side::Side;
use size::refusal::Refusal;

/// A side cut into parts.
pub(crate) trait Parts {
    // where each part begins, and the last one ends
    ghost cut: { Self → ℕ → ℤ };

    // how many parts there are
    ghost count: { Self → ℕ };

    fn count(&self) -> usize
        ensures value { result ≡ count self.now }
        ensures few { result ≤ 1001 };

    fn part(&self, idx: usize) -> Side
        requires { idx < count self.now }
        ensures from { result.from ≡ cut self.now idx }
        ensures to { result.to ≡ cut self.now (idx + 1) };
}

// Fills the slice with the cells between the columns `across` and the rows `down`, row by row.
#[tactic(auto, using(crate::proofs::Written::written_more))]
fn fill<P: Parts>(across: &P, down: &P, cells: &mut [Area])
    requires { length cells.old ≡ P.count down.now * P.count across.now }
    ensures { map corners cells.new ≡ grid_of (P.cut across.now) (P.cut down.now) (P.count down.now) (P.count across.now) }
{
    let cols = across.count();
    for (k, cell) in cells.iter_mut().enumerate() {
        *cell = Area {
            across: across.part(k % cols),
            down: down.part(k / cols),
        };
    }
}

/// Writes these cells to the front of `out` and answers how many there are; refused where `out` is too short.
#[tactic(auto, using(crate::proofs::Written::rest_kept))]
pub(crate) fn write_cells<P: Parts>(
    across: &P,
    down: &P,
    out: &mut [Area],
) -> Result<usize, Refusal>
    ensures answer { result ≡ counted (P.count down.now) (P.count across.now) (length out.old) }
    ensures after { map corners out.new ≡ on_ok result (grid_into (P.cut across.now) (P.cut down.now) (P.count down.now) (P.count across.now) (map corners out.old)) (map corners out.old) }
    ensures cells { IfOk result (λ n. take n (map corners out.new) ≡ grid_of (P.cut across.now) (P.cut down.now) (P.count down.now) (P.count across.now)) }
{
    let n = down.count() * across.count();
    if n > out.len() {
        return Err(Refusal::Short);
    }
    fill(across, down, &mut out[..n]);
    Ok(n)
}
