// What the nodes of a description are to the writer.
ghost use Rattle.std.specs.Prelude.{◌≡◌, length, take, is_err, OnOk, IfErr};
ghost use Rattle.writing.specs.Fields.{some_unwritable};
ghost use Rattle.writer.specs.Inner.Fields.{fields_to};

use crate::stored::Stored;
use description::MOST_NODES;
use description::places::Nodes;
use writing::Refused;

/// "14, the description has both, absorb or scan". Where it has none, the fields of its nodes are looked up. They are
/// lent and no part of the result, since 64 of them are not to be copied; and by index, since nothing is known of the elements after an
/// adapter of `iter_mut`, as `zip`.
pub fn look_up(nodes: &Nodes, fields: &mut [Stored; MOST_NODES]) -> Result<(), Refused>
    ensures unwritable { is_err result
        ≡ some_unwritable (fields_to nodes.now.desc.now (length nodes.now.starts.now)) }
    ensures refused { IfErr result (λ refused. refused ≡ Refused.NotWritable) }
    ensures looked_up { OnOk result
        (take (length nodes.now.starts.now) fields.new ≡ fields_to nodes.now.desc.now (length nodes.now.starts.now)) }
{
    for node in 0..nodes.starts.len() {
        fields[node] = Stored::of_node(nodes, node).ok_or(Refused::NotWritable)?;
    }
    Ok(())
}
