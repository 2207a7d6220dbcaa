ghost use Rattle.std.specs.Prelude.{ℕ, List};
ghost use Rattle.format.specs.Texts.{Formatted};

use size::refusal::Refusal;

/// One fixed text of at most 32 bytes for each value.
pub trait ValueFormatter<V> {
    ghost text: { Self → V → List ℕ };

    /// Writes the text of `value` at the front of `out` and answers its length; refused with 9 where `out` has under 32 bytes.
    /// What stands past the text is left open.
    // A lent slice and a length, since the library has no heap to answer a text on.
    fn format(&self, value: V, out: &mut [u8]) -> Result<usize, Refusal>
        ensures { Formatted (text self.now value) out.old result out.new };
}
