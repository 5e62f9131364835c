// The words for the kinds of step.
ghost use Rattle.std.specs.Prelude.{◌≡◌};
ghost use Rattle.trace_text.specs.Kinds.{kind_name, is_plain_kind, is_batch_kind, is_alone_kind, is_hazard_kind, is_row_kind, is_kind};

use step_core::StepKind;

/// The word for a kind.
pub(crate) fn kind_name(kind: StepKind) -> &'static [u8]
    ensures { result.now ≡ kind_name kind }
{
    match kind {
        StepKind::LoadHead => b"load_head",
        StepKind::LoadTail => b"load_tail",
        StepKind::LoadLink => b"load_link",
        StepKind::LoadValue => b"load_value",
        StepKind::StoreValue => b"store_value",
        StepKind::LinkSingle => b"link_single",
        StepKind::MoveTail => b"move_tail",
        StepKind::MoveHead => b"move_head",
        StepKind::StoreChain => b"store_chain",
        StepKind::StoreAnn => b"store_ann",
        StepKind::Install => b"install",
        StepKind::LoadAnn => b"load_ann",
        StepKind::LinkChain => b"link_chain",
        StepKind::RecordTail => b"record_tail",
        StepKind::MoveTailOver => b"move_tail_over",
        StepKind::MoveHeadAnn => b"move_head_ann",
        StepKind::MoveHeadMany => b"move_head_many",
        StepKind::LinkStopper => b"link_stopper",
        StepKind::Decide => b"decide",
        StepKind::StoreAnnHazard => b"store_ann_hazard",
        StepKind::StoreNodeHazard => b"store_node_hazard",
        StepKind::LoadHazard => b"load_hazard",
        StepKind::LoadMark => b"load_mark",
        StepKind::ClearMark => b"clear_mark",
        StepKind::ClearLink => b"clear_link",
        StepKind::MarkRow => b"mark_row",
        StepKind::MarkFree => b"mark_free",
    }
}

/// Whether a word is a kind.
pub(crate) fn is_kind(word: &[u8]) -> bool
    ensures { result ≡ is_kind word.now }
{
    is_plain_kind(word)
        || is_batch_kind(word)
        || is_alone_kind(word)
        || is_hazard_kind(word)
        || is_row_kind(word)
}

fn is_plain_kind(word: &[u8]) -> bool
    ensures { result ≡ is_plain_kind word.now }
{
    word == b"load_head".as_slice()
        || word == b"load_tail".as_slice()
        || word == b"load_link".as_slice()
        || word == b"load_value".as_slice()
        || word == b"store_value".as_slice()
        || word == b"link_single".as_slice()
        || word == b"move_tail".as_slice()
        || word == b"move_head".as_slice()
}

fn is_batch_kind(word: &[u8]) -> bool
    ensures { result ≡ is_batch_kind word.now }
{
    word == b"store_chain".as_slice()
        || word == b"store_ann".as_slice()
        || word == b"install".as_slice()
        || word == b"load_ann".as_slice()
        || word == b"link_chain".as_slice()
        || word == b"record_tail".as_slice()
        || word == b"move_tail_over".as_slice()
        || word == b"move_head_ann".as_slice()
}

fn is_alone_kind(word: &[u8]) -> bool
    ensures { result ≡ is_alone_kind word.now }
{
    word == b"move_head_many".as_slice()
        || word == b"link_stopper".as_slice()
        || word == b"decide".as_slice()
}

fn is_hazard_kind(word: &[u8]) -> bool
    ensures { result ≡ is_hazard_kind word.now }
{
    word == b"store_ann_hazard".as_slice()
        || word == b"store_node_hazard".as_slice()
        || word == b"load_hazard".as_slice()
}

fn is_row_kind(word: &[u8]) -> bool
    ensures { result ≡ is_row_kind word.now }
{
    word == b"load_mark".as_slice()
        || word == b"clear_mark".as_slice()
        || word == b"clear_link".as_slice()
        || word == b"mark_row".as_slice()
        || word == b"mark_free".as_slice()
}
