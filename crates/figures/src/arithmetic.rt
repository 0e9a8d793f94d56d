// Products and inverses of elements that are given by their lists.
ghost use Rattle.std.specs.Prelude.{◌≡◌};
ghost use Rattle.figures.specs.Rows.{ProductOf, InverseOf};

use numbers::listed::PrefixListed;

// The product of the elements that mean two lists; none where a list is no element.
pub fn product<S: PrefixListed>(left: &[u64], right: &[u64]) -> Option<S>
    ensures { ProductOf S.sys S.mean left.now right.now result }
{
    let a = S::from_list(left).ok()?;
    let b = S::from_list(right).ok()?;
    Some(a.mul(&b))
}

// The square of the element that means a list; none where the list is no element.
pub fn square<S: PrefixListed>(list: &[u64]) -> Option<S>
    ensures { ProductOf S.sys S.mean list.now list.now result }
{
    let a = S::from_list(list).ok()?;
    Some(a.square())
}

// The inverse of the element that means a list; none where no element is one, and where the list is no element.
pub fn inverse<S: PrefixListed>(list: &[u64]) -> Option<S>
    ensures { InverseOf S.sys S.mean list.now result }
{
    let a = S::from_list(list).ok()?;
    a.inverse()
}
