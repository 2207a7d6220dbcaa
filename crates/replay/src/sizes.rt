use crate::fault::Fault;
use crate::words::Words;
use size::desc::SizeDesc;
use std::alloc::Global;

/// `SIZE WIDTH HEIGHT`: the number of pixels that a size comes to in a parent of these sides.
pub(crate) fn answer(heap: Global, words: &mut Words<'_>) -> Result<String, Fault> {
    let size = words.size()?;
    let parent = (words.number::<u32>()?, words.number::<u32>()?);
    words.done()?;
    let pixels = size.in_pixels(&parent)?;
    Ok(format!(in heap; "{pixels}")?)
}
