ghost use Rattle.std.specs.Prelude.{◌≡◌};
ghost use Rattle.prop_requests.specs.Spots.{subject_at};

use crate::asked_as::AskedAs;
use dsv_base::{Path, Rev};
use prop_values::{NodePlace, Subject};
use rev_nodes::Node;
use std::marker::Model;

/// Where a node is asked about: at which path of which revision, and as what. Contracts see these three.
#[derive(Debug, Drop)]
pub(crate) struct Spot<'a> {
    pub asked: AskedAs,
    pub rev: Rev,
    pub path: &'a Path,
}

impl<'a> Model for Spot<'a> {
    ghost use Rattle.prop_requests.specs.Spots.{SpotState};

    ghost Value = { SpotState };

    ghost view = { λ s. record { asked = s.asked; rev = s.rev; path = s.path.now } };
}

impl<'a> Spot<'a> {
    /// The spot of these three.
    pub(crate) fn of(asked: AskedAs, rev: Rev, path: &'a Path) -> Spot<'a>
        ensures { result ≡ record { asked = asked; rev = rev; path = path.now } }
    {
        Spot { asked, rev, path }
    }

    /// Another path of the same revision, asked about as the same.
    pub(crate) fn at<'b>(&self, path: &'b Path) -> Spot<'b>
        ensures { result ≡ record { asked = self.now.asked; rev = self.now.rev; path = path.now } }
    {
        Spot::of(self.asked, self.rev, path)
    }

    /// The node that stands there, as what has properties.
    pub(crate) fn subject(&self, node: &'a Node) -> Subject<'a>
        ensures { result ≡ subject_at self.now node.now }
    {
        let place = NodePlace {
            rev: self.rev,
            path: self.path,
            node,
        };
        match self.asked {
            AskedAs::Youngest => Subject::YoungestNode(place),
            AskedAs::Named => Subject::RevisionNode(place),
        }
    }
}
