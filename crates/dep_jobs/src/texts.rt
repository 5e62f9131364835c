// Texts by the numbers of jobs.
ghost use Rattle.std.specs.Prelude.{◌≡◌, ◌<◌, [], length, map, All, IfOk, OnOk, replicate, slice_index_or};
ghost use Rattle.job_text.specs.JobFile.{AreBytes};
ghost use Rattle.dep_jobs.specs.Texts.{put_all};

use bq_model::{Bytes, OutOfMemory, Text};
use bulk_dispatcher::Reply;
use std::alloc::Global;

/// The text of the job of this number, no bytes where there is none.
pub(crate) fn text_at(texts: &[Text], job: u32) -> &[u8]
    ensures { result.now ≡ slice_index_or texts.now job [] }
{
    match texts.get(job as usize) {
        Some(text) => text.as_slice(),
        None => &[],
    }
}

/// The same bytes once more.
pub(crate) fn copied(alloc: Global, bytes: &[u8]) -> Result<Bytes, OutOfMemory>
    ensures same { IfOk result (λ copy. copy ≡ bytes.now) }
    ensures bytes { IfOk result (λ copy. AreBytes copy) }
{
    Ok(Bytes::from(Vec::from_slice(alloc, bytes)?))
}

/// So many texts of no bytes.
pub(crate) fn no_texts(alloc: Global, count: usize) -> Result<Vec<Text>, OutOfMemory>
    ensures { IfOk result (λ texts. texts.items ≡ replicate count []) }
{
    let mut texts = Vec::with_capacity(alloc, count)?;
    for _job in 0..count {
        texts.push(Text::new(alloc))?;
    }
    Ok(texts)
}

/// Puts the texts of replies at the places of these numbers.
pub(crate) fn put_texts(
    alloc: Global,
    texts: &mut Vec<Text>,
    numbers: &[u32],
    replies: &[Reply],
) -> Result<(), OutOfMemory>
    requires within { All (λ number. number < length texts.old.items) numbers.now }
    requires one_each { length replies.now ≡ length numbers.now }
    requires bytes { All AreBytes texts.old.items }
    ensures put { OnOk result (texts.new.items ≡ put_all texts.old.items numbers.now (map (λ reply. reply.text) replies.now)) }
    ensures still_bytes { OnOk result (All AreBytes texts.new.items) }
{
    for (place, number) in numbers.iter().enumerate() {
        let text = copied(alloc, replies[place].text().as_slice())?;
        texts[*number as usize] = text;
    }
    Ok(())
}
