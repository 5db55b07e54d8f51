//! What holds of the labels of every tape: a caller of the function has the law. No crate calls the
//! other two, which say what the list is. A loud program has a wait or an end, or calls one that
//! has.
ghost use Rattle.std.specs.Prelude.{◌≡◌, ◌≤◌, ◌↔◌, ℕ, List};
ghost use Rattle.block_order.specs.declared.program.ControlProgram.{ControlProgram};
ghost use Rattle.block_order.specs.Labels.{IsUnforked, list};
ghost use Rattle.label_list.specs.Accepted.{AgreeOnLabels, IsAcceptedPair};
ghost use Rattle.label_list.specs.declared.labelled.Labelled.{Labelled};
ghost use Rattle.label_list.specs.Lists.{bare_labels, path_labels, labels_of_program};
ghost use Rattle.loud_calls.specs.Calls.{IsShort};

/// The labels of a path with their lines are, lines aside, the labels ahead of its start.
pub fn labels_are_those_of_the_blocks()
    ensures { (tape : List ControlProgram) → bare_labels (path_labels tape) ≡ list tape }
{}

/// The labels of a program do not depend on how many calls may follow in it, n or more, if no chain
/// of n calls of loud programs begins in it.
pub fn labels_hang_on_no_number_of_calls()
    ensures { (tape : List ControlProgram) (n m program : ℕ) (back : ℕ → List Labelled)
        → IsShort tape n program → n ≤ m
        → labels_of_program tape n program back ≡ labels_of_program tape m program back }
{}

/// Two tapes that have one list of labels each are an accepted pair exactly if the lists with their
/// lines are short enough and agree, lines aside.
pub fn a_pair_is_accepted_by_its_lists()
    ensures { (left right : List ControlProgram) → IsUnforked left → IsUnforked right
        → IsAcceptedPair left right ↔ AgreeOnLabels left right }
{}
