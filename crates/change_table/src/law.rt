ghost use Rattle.change_table.specs.ChangeTables.{TableIsChangedPaths};

/// The changed paths that a table tells, by a look at the ancestors of each of its paths, are those of
/// the commit, for which all changes are looked through for each path.
pub fn one_pass_tells_changed_paths()
    ensures { TableIsChangedPaths }
{}
