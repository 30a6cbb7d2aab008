//! Lists in order, with items more.

ghost use Rattle.std.specs.Prelude.{◌≡◌, true, map, nat_lt, OnOk};
ghost use Rattle.ev_incidence.specs.Sets.{ascends, ascends_by, is_member};
ghost use Rattle.ev_graph.specs.Cutting.{is_before_link};
ghost use Rattle.dx_explain.specs.Cases.{inserted, with_links, broken_of};
ghost use Rattle.dx_case.specs.Places.{IsInsertPlace};

use ev_graph::{Link, NoMemory};

/// The place of a number among numbers in order.
fn place_of_number(list: &[u32], number: u32) -> usize
    requires { ascends list.now ≡ true }
    ensures { IsInsertPlace nat_lt number list.now result }
{
    list.partition_point(|item| *item < number)
}

/// Puts a number into a list in order, unless it is there.
pub(crate) fn put_number(list: &mut Vec<u32>, number: u32) -> Result<(), NoMemory>
    requires { ascends list.old.items ≡ true }
    ensures put { OnOk result (list.new.items ≡ inserted nat_lt number list.old.items) }
    ensures ascend { OnOk result (ascends list.new.items ≡ true) }
{
    let at = place_of_number(list.as_slice(), number);
    if at < list.len() && list[at] == number {
        return Ok(());
    }
    list.insert(at, number)?;
    Ok(())
}

/// Whether a number is one of these. It takes the time of one search where they ascend, and says
/// nothing where they don't.
pub(crate) fn is_among(numbers: &[u32], number: u32) -> bool
    ensures { ascends numbers.now ≡ true → result ≡ is_member numbers.now number }
{
    numbers.binary_search(&number).is_ok()
}

/// Whether a link stands before another.
fn is_before(a: &Link, b: &Link) -> bool
    ensures { result ≡ is_before_link a.now b.now }
{
    a.instance < b.instance || (a.instance == b.instance && a.effect < b.effect)
}

/// The place of a link among links in order.
fn place_of_link(list: &[Link], link: &Link) -> usize
    requires { ascends_by is_before_link list.now ≡ true }
    ensures { IsInsertPlace is_before_link link.now list.now result }
{
    list.partition_point(|item| is_before(item, link))
}

/// Puts a link into links in order, unless it is there.
fn put_link(list: &mut Vec<Link>, link: Link) -> Result<(), NoMemory>
    requires { ascends_by is_before_link list.old.items ≡ true }
    ensures put { OnOk result (list.new.items ≡ inserted is_before_link link list.old.items) }
    ensures ascend { OnOk result (ascends_by is_before_link list.new.items ≡ true) }
{
    let at = place_of_link(list.as_slice(), &link);
    if at < list.len() && !is_before(&link, &list[at]) {
        return Ok(());
    }
    list.insert(at, link)?;
    Ok(())
}

/// Puts links into links in order, each unless it is there.
pub(crate) fn put_links(list: &mut Vec<Link>, links: &[Link]) -> Result<(), NoMemory>
    requires { ascends_by is_before_link list.old.items ≡ true }
    ensures put { OnOk result (map broken_of list.new.items
        ≡ with_links links.now (map broken_of list.old.items)) }
    ensures ascend { OnOk result (ascends_by is_before_link list.new.items ≡ true) }
{
    for link in links {
        put_link(list, *link)?;
    }
    Ok(())
}
