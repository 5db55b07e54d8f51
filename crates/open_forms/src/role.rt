//! What a block of words is there for. codes.rt finds it; controls.rt and refusals.rt go by it.

/// What decides where a block of words leads.
#[derive(Clone, Copy, Debug, PartialEq, Eq)]
pub enum Role {
    /// G65: a call of a macro, in which M is an argument.
    MacroCall,
    /// M98: a call of a subprogram.
    Subprogram,
    /// M99: a return.
    Return,
    /// A waiting M code.
    Wait,
    /// M02 or M30: the end.
    End,
    /// G71, G72 or G73 with a contour: the path goes on with the next block, or with the last block
    /// of the contour.
    Roughing,
    /// G70, with a contour or without one; without one it is refused.
    Finishing,
    /// None of these: the path goes on to the next block.
    Other,
}
