ghost use Rattle.std.specs.Prelude.{◌≡◌, ◌++◌, refl, IfOk, OnOk, Some, nat_eq};
ghost use Rattle.std.specs.Cmp.{partial_equiv_from_equiv, partial_order_from_agreeing_total};
ghost use Rattle.std.specs.Cmp.Lexicographic.{pointwise, nat_list_eq_equiv};
ghost use Rattle.fm_name.specs.Order.{path_cmp};
ghost use Rattle.fm_name.specs.OrderLaws.{path_cmp_total, path_cmp_ties};
ghost use Rattle.fm_topo.specs.Code.{path_code};

use fm_bytes::NoMemory;
use fm_name::Fmri;
use std::alloc::Global;
use std::cmp::Ordering;
use std::marker::Model;

/// A path with its code, which is compared in place of its text: a text would be parted at each
/// comparison.
#[derive(Debug, Drop)]
pub struct Key {
    path: Fmri,
    code: Vec<u32>,
}

impl Model for Key {
    ghost use Rattle.std.specs.Prelude.{◌≡◌, ℕ, List, IsTrue};
    ghost use Rattle.fm_name.specs.Path.{is_path};
    ghost use Rattle.fm_topo.specs.Code.{path_code};

    ghost Value = { List ℕ };

    ghost view = { λ k. k.path };

    ghost invariant = { λ k. IsTrue (is_path k.path) × (k.code.items ≡ path_code k.path) };
}

/// Appends the bytes of a name.
fn add_name(name: &str, code: &mut Vec<u32>) -> Result<(), NoMemory>
    ensures { OnOk result (code.new.items ≡ code.old.items ++ name.now) }
{
    for byte in name.as_bytes() {
        code.push(u32::from(*byte))?;
    }
    Ok(())
}

/// The code of a path.
#[tactic(auto, using(crate::proofs::Codes::coded), unfolding(crate::specs::Code::path_code))]
fn code_of(alloc: Global, path: &Fmri) -> Result<Vec<u32>, NoMemory>
    ensures { IfOk result (λ code. code.items ≡ path_code path.now) }
{
    let mut code = Vec::new(alloc);
    for at in 0..path.depth() {
        add_name(path.name(at), &mut code)?;
        code.push(0)?;
        code.push(path.instance(at))?;
    }
    Ok(code)
}

impl Key {
    /// The key of a path.
    pub fn new(alloc: Global, path: Fmri) -> Result<Key, NoMemory>
        ensures { IfOk result (λ key. key ≡ path) }
    {
        let _text = path.text();
        let code = code_of(alloc, &path)?;
        Ok(Key { path, code })
    }

    /// The path.
    pub fn path(&self) -> &Fmri
        ensures { result.now ≡ self.now }
    {
        &self.path
    }

    /// The path alone.
    pub fn into_path(self) -> Fmri
        ensures { result ≡ self }
    {
        self.path
    }
}

impl PartialEq for Key {
    ghost eq = { pointwise nat_eq };

    ghost laws = { partial_equiv_from_equiv nat_list_eq_equiv };

    fn eq(&self, other: &Key) -> bool {
        self.path == other.path
    }
}

impl Eq for Key {
    ghost laws = { nat_list_eq_equiv };
}

impl PartialOrd for Key {
    ghost partial_cmp = { λ x y. Some (path_cmp x y) };

    ghost laws = { partial_order_from_agreeing_total path_cmp path_cmp_total (λ x y. refl)
        path_cmp_ties };

    fn partial_cmp(&self, other: &Key) -> Option<Ordering> {
        Some(self.cmp(other))
    }
}

impl Ord for Key {
    ghost cmp = { path_cmp };

    ghost total = { path_cmp_total };

    ghost matches_partial_cmp = { λ x y. refl };

    ghost matches_eq = { path_cmp_ties };

    #[tactic(auto, using(crate::proofs::Codes::codes_order))]
    fn cmp(&self, other: &Key) -> Ordering {
        self.code.as_slice().cmp(&other.code.as_slice())
    }
}
