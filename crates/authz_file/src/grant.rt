use crate::right::Right;
use crate::section_place::SectionPlace;
use crate::who::Who;

/// What a line of a path section says, but for the word that it names.
#[derive(Debug, Drop)]
pub(crate) struct Grant {
    pub(crate) place: SectionPlace,
    pub(crate) negated: bool,
    pub(crate) who: Who,
    pub(crate) right: Right,
}
