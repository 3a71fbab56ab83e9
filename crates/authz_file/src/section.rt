use crate::section_place::SectionPlace;

/// The three kinds of section.
#[derive(Debug, Drop)]
pub(crate) enum Section {
    Groups,
    Aliases,
    At(SectionPlace),
}
