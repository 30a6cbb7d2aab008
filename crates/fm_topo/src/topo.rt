ghost use Rattle.std.specs.Prelude.{◌≡◌, ◌+◌, ◌<◌, ◌≤◌, length, take, drop, filter, count_by, IfOk};
ghost use Rattle.std.specs.Prelude.{Some, slice_get, map, option_copied};
ghost use Rattle.std.specs.Ordering.{is_le};
ghost use Rattle.std.specs.Map.{keys_of};
ghost use Rattle.fm_name.specs.Order.{parts_cmp};
ghost use Rattle.fm_name.specs.Path.{parts_of};
ghost use Rattle.fm_topo.specs.Groups.{IsGrouped, names_text};
ghost use Rattle.fm_topo.specs.Lawful.{IsTopology};
ghost use Rattle.fm_topo.specs.Query.{lies_under, property_at};
ghost use Rattle.fm_topo.specs.Topology.{properties_at, has_path};

use crate::groups::{Groups, names_text};
use crate::properties::Properties;
use crate::values::TopoValue;
use fm_bytes::NoMemory;
use fm_name::Fmri;
use std::alloc::Global;
use std::marker::Model;

/// A topology: the paths in path order, each with its properties. Contracts see the list of these
/// pairs.
#[derive(Debug, Drop)]
pub struct Topo {
    places: Vec<(Fmri, Properties)>,
}

impl Model for Topo {
    ghost use Rattle.fm_topo.specs.Topology.{Topology};
    ghost use Rattle.fm_topo.specs.Lawful.{IsTopology};

    ghost Value = { Topology };

    ghost view = { λ t. t.places.items };

    ghost invariant = { λ t. IsTopology t.places.items };
}

impl Topo {
    /// The places as a topology.
    pub(crate) fn from_vec(places: Vec<(Fmri, Properties)>) -> Topo
        requires { IsTopology places.items }
        ensures { result ≡ places.items }
    {
        Topo { places }
    }

    /// The places, in path order.
    pub(crate) fn places(&self) -> &[(Fmri, Properties)]
        ensures same { result.now ≡ self.now }
        ensures lawful { IsTopology self.now }
    {
        self.places.as_slice()
    }

    /// How many paths there are.
    pub fn len(&self) -> usize
        ensures count { result ≡ length self.now }
        ensures lawful { IsTopology self.now }
    {
        self.places.len()
    }

    /// The path of a number, in path order.
    pub fn path(&self, at: usize) -> &Fmri
        requires { at < length self.now }
        ensures path { slice_get (keys_of self.now) at ≡ Some result.now }
        ensures lawful { IsTopology self.now }
    {
        &self.places[at].0
    }

    /// The properties of a path, where it is there.
    fn properties(&self, path: &Fmri) -> Option<&Properties>
        ensures found { option_copied result ≡ properties_at self.now path.now }
        ensures lawful { IsTopology self.now }
    {
        match self.places.binary_search_by(|place| place.0.cmp(path)) {
            Ok(at) => Some(&self.places[at].1),
            Err(_) => None,
        }
    }

    /// The properties of a path, where it is there. They are sought at a number first.
    fn properties_near(&self, near: usize, path: &Fmri) -> Option<&Properties>
        ensures found { option_copied result ≡ properties_at self.now path.now }
        ensures lawful { IsTopology self.now }
    {
        if near < self.places.len() {
            let place = &self.places[near];
            if place.0 == *path {
                return Some(&place.1);
            }
        }
        self.properties(path)
    }

    /// Whether a path is there.
    pub fn has(&self, path: &Fmri) -> bool
        ensures found { result ≡ has_path self.now path.now }
        ensures lawful { IsTopology self.now }
    {
        self.properties(path).is_some()
    }

    /// The range of the paths strictly under a path, as the number of the first and how many they
    /// are. Where there are none, the first number is that of the first path behind it.
    pub fn children(&self, above: &Fmri) -> (usize, usize)
        ensures within { result.0 + result.1 ≤ length self.now }
        ensures first { result.0
            ≡ count_by (λ place. is_le (parts_cmp (parts_of place.0) (parts_of above.now)))
            self.now }
        ensures lawful { IsTopology self.now }
        ensures range { take result.1 (drop result.0 self.now)
            ≡ filter (λ place. lies_under place.0 above.now) self.now }
    {
        let first = self
            .places
            .partition_point(|place| place.0.cmp(above).is_le());
        let behind = &self.places[first..];
        let count = behind.partition_point(|place| lies_under(&place.0, above));
        (first, count)
    }

    /// The value of a property of a path, where path and name are there.
    #[tactic(auto, unfolding(crate::specs::Query::property_at))]
    pub fn property(&self, path: &Fmri, name: &str) -> Option<&TopoValue>
        ensures found { option_copied result ≡ property_at self.now path.now name.now }
        ensures lawful { IsTopology self.now }
    {
        match self.properties(path) {
            Some(properties) => properties.value(name),
            None => None,
        }
    }

    /// The value of a property of a path, as `property` answers it. The path is sought at a number
    /// first, so that where it has that number no search is made.
    #[tactic(auto, unfolding(crate::specs::Query::property_at))]
    pub fn property_near(&self, near: usize, path: &Fmri, name: &str) -> Option<&TopoValue>
        ensures found { option_copied result ≡ property_at self.now path.now name.now }
        ensures lawful { IsTopology self.now }
    {
        match self.properties_near(near, path) {
            Some(properties) => properties.value(name),
            None => None,
        }
    }

    /// The numbers of the paths, grouped by the names of the paths, which are joined by slashes.
    pub fn groups(&self, alloc: Global) -> Result<Groups, NoMemory>
        ensures groups { IfOk result (IsGrouped self.now) }
        ensures lawful { IsTopology self.now }
    {
        let mut texts = Vec::with_capacity(alloc, self.places.len())?;
        'places: for place in &self.places {
            texts.push(names_text(alloc, &place.0)?)?;
        }
        let groups = Groups::new(alloc, &texts)?;
        Ok(groups)
    }

    /// An equal topology.
    pub fn copy(&self, alloc: Global) -> Result<Topo, NoMemory>
        ensures same { IfOk result (λ topo. topo ≡ self.now) }
        ensures lawful { IsTopology self.now }
    {
        let mut places = Vec::new(alloc);
        for (path, properties) in &self.places {
            places.push((path.copy()?, properties.copy(alloc)?))?;
        }
        Ok(Topo { places })
    }
}

/// Whether a path is under another and longer.
fn lies_under(path: &Fmri, above: &Fmri) -> bool
    ensures { result ≡ lies_under path.now above.now }
{
    path.is_under(above) && above.depth() < path.depth()
}
