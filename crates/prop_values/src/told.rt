use dsv_base::{Moment, Prop};
use path_locks::Lock;
use std::marker::Model;

/// What is told of one node or revision beside what it is. Contracts see it as a record of lists and
/// numbers.
#[derive(Debug, Drop)]
pub struct Told<'a> {
    /// Where the repository stands: the path of its root in targets.
    pub root: &'a [u8],
    /// The UUID of the repository.
    pub uuid: &'a [u8],
    /// The lock on the node, where it is one of the youngest revision and has one.
    pub lock: Option<&'a Lock>,
    /// The properties of the revision that is told of, as far as the user is shown them.
    pub props: &'a [Prop],
    /// The author of that revision, where it has one and the user is shown it.
    pub author: Option<&'a [u8]>,
    /// When it was made, where the user is shown that.
    pub moment: Option<Moment>,
}

impl<'a> Model for Told<'a> {
    ghost use Rattle.std.specs.Option.{option_copied};
    ghost use Rattle.prop_values.specs.Places.{Facts as Known};

    ghost Value = { Known };

    ghost view = { λ t. record {
      root = t.root.now;
      uuid = t.uuid.now;
      lock = option_copied t.lock;
      props = t.props.now;
      author = option_copied t.author;
      moment = t.moment;
    } };
}
