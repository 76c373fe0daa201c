// What may come next in an expression, and what a token does there. The cases are those of crate text_expr
// (specs/PhasesCode.antt, specs/LevelsCode.antt).
#[derive(Clone, Copy)]
pub enum Phase {
    Operand,
    Whole,
    // new T() is read, and no operator belongs to it.
    Bare,
    // The name that stands from one place up to another is read.
    Named(usize, usize),
    // The bracket of a call is read.
    Called,
    Recv1,
    Measure1,
    Measure2,
    Measure3,
    Measure4,
    Measure5,
    New1,
    New2,
    New3,
    New4,
    New5,
    New6,
}

#[derive(Clone, Copy)]
pub enum Effect {
    // The next phase; brackets and assignments stay.
    Stay(Phase),
    // One assignment more is open; or one less.
    Assigns,
    Unassigns,
    OpensBracket,
    OpensCall,
    Closes,
    NextArgument,
    // The text leaves the grammar at this place.
    Astray(usize),
    // The expression has ended.
    Beyond,
}

// The innermost bracket: none, one that is no call's, or a call's.
pub const NO_BRACKET: u8 = 0;

pub const BRACKET: u8 = 1;

pub const CALL: u8 = 2;
