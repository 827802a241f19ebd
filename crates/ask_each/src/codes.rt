// The single question by an object's codes, compared with the label's own.
ghost use Rattle.std.specs.Prelude.{◌≡◌, true, length};
ghost use Rattle.store_read.specs.Back.{blocked_in};
ghost use Rattle.columns.specs.Columns.{accepts};
ghost use Rattle.rules.specs.Types.{field_says};
ghost use Rattle.ask_span.specs.Graph.{strong_in};
ghost use Rattle.ask_field.specs.Sought.{field_found};
ghost use Rattle.ask_short.specs.Lean.{shortly, leanly};
ghost use Rattle.ask_each.specs.Listed.{Sole, FewTold};

use ask_each_codes::SoleCode;
use ask_span::Strong;
use rules::ReadError;

// The single question, by the codes of a span that was told; a refusal says that the whole question is to be asked.
pub(crate) fn by_codes(
    graph: Strong<'_>,
    object: usize,
    label: u32,
    sole: SoleCode,
    start: usize,
    count: usize,
) -> Result<Option<u32>, ReadError>
    requires sole { Sole graph.labels.fields.now label sole.code sole.most }
    requires few_told { FewTold (shortly (blocked_in graph.offsets)) (length graph.labels.codes.now) (length graph.targets.now) object start count }
    ensures { accepts (field_says result) ≡ true → field_says result ≡ field_found (leanly (strong_in graph.entry)) object label }
{
    if 255 <= count {
        return Err(ReadError::Columns(object));
    }
    let sought = ask_each_codes::seek(
        graph.labels.codes,
        start,
        count,
        graph.labels.fields,
        label,
        sole,
    );
    ask_field::sought_answer(graph.targets, start, sought, object)
}
