// Whether what the writer is given keeps the rules, in document 01's order.
ghost use Rattle.std.specs.Prelude.{◌≡◌, ◌≤◌};
ghost use Rattle.array.specs.Meaning.{product, most};
ghost use Rattle.arraywriter.specs.Given.{size_rows, body_rows, given_rows};
ghost use Rattle.verdict.specs.Judgement.{judgement};
ghost use Rattle.arraywriter.specs.Checking.{measured_of};

use verdict::Reason;

const MOST: usize = array::MOST as usize;

// How many elements there are: the sizes in turn, their product checked before it is formed.
fn product_of(sizes: &[usize]) -> Result<usize, Reason>
    ensures { result ≡ measured_of (size_rows 1 sizes.now) (product sizes.now) }
{
    let mut elements: usize = 1;
    for &size in sizes {
        if size == 0 {
            return Err(Reason::Zero);
        }
        if MOST / elements < size {
            return Err(Reason::TooLarge);
        }
        elements *= size;
    }
    Ok(elements)
}

// E and the array, behind sizes of this product.
fn check_body(sizes: &[usize], elements: usize, element: usize, array: &[u8]) -> Result<(), Reason>
    requires { (elements ≡ product sizes.now) × ((1 ≤ elements) × (elements ≤ most)) }
    ensures { result ≡ judgement (body_rows sizes.now element array.now) }
{
    if MOST / elements < element {
        return Err(Reason::TooLarge);
    }
    if array.len() != elements * element {
        return Err(Reason::Disagree);
    }
    Ok(())
}

// The count of sizes, the sizes, then E and the array.
pub(crate) fn check(sizes: &[usize], element: usize, array: &[u8]) -> Result<(), Reason>
    ensures { result ≡ judgement (given_rows sizes.now element array.now) }
{
    if sizes.is_empty() {
        return Err(Reason::Zero);
    }
    if 8 < sizes.len() {
        return Err(Reason::TooLarge);
    }
    let elements = product_of(sizes)?;
    check_body(sizes, elements, element, array)
}
