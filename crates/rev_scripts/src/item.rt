use dsv_base::Prop;
use rev_nodes::Change;

/// An item of a revision in a script.
#[derive(Debug, Drop)]
pub enum Item {
    /// The revision ends here.
    End,
    /// A property of the revision itself.
    Prop(Prop),
    Change(Change),
}
