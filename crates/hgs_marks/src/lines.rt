//! The lines of `bookmarks`, of which several may have one name.
ghost use Rattle.hgs_bytes.specs.Answer.{Gives};
ghost use Rattle.hgs_marks.specs.Bookmarks.{is_memory, mark_lines};
ghost use Rattle.hgs_marks.specs.Lines.{line_nodes, node_values};

use crate::bookmarks::mark_from;
use crate::fault::MarkFault;
use hgs_bytes::parts::next_line;
use hgs_index::node::Node;
use std::alloc::Global;

/// The node of each line of a text, in their order, or the first of its faults by lines. The last line may lack its LF.
pub fn mark_nodes(alloc: Global, text: &[u8]) -> Result<Vec<Node>, MarkFault>
    ensures { Gives is_memory (λ nodes. node_values nodes.items) result (line_nodes (mark_lines text.now)) }
{
    let mut nodes = Vec::new(alloc);
    let mut rest = text;
    let mut number = 0;
    while rest.len() > 0 {
        let (line, _, after) = next_line(rest);
        number += 1;
        let mark = mark_from(line, number)?;
        nodes.push(mark.node)?;
        rest = after;
    }
    Ok(nodes)
}
