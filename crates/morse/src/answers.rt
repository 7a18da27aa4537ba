// The page's numbers of what keying and reading answer, under the header's names, as far as a call of C answers them without
// an enum of its own (`ems_summary`, `tell`), or an enum that bears another has no number of its own (`KeyFault`).
// `specs/Answers.antt` has them all.

// Done by the rules.
pub const DONE: u8 = 0;

// A room shorter than the result.
pub const NO_ROOM: u8 = 14;
