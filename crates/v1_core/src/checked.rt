// Whether a node fits the frames of a layout.
ghost use Rattle.std.specs.Prelude.{◌≡◌, ◌+◌, ◌*◌, true, IfSome};
ghost use Rattle.v1_core.specs.Scalars.{IsWord};
ghost use Rattle.v1_core.specs.Nodes.{IsElement, IsWidth};

use crate::layout::FrameLayout;
use crate::node::Element;
use crate::numbers::low;

/// Whether a number is one of so many bits, 128 at most.
pub fn is_word(width: u8, number: u128) -> bool
    ensures { result ≡ true → IsWord width number }
{
    width <= 128 && low(number, width) == number
}

/// Whether this is a number of bits from 1 to 128.
pub fn is_width(width: u8) -> bool
    ensures { result ≡ true → IsWidth width }
{
    width > 0 && width <= 128
}

/// Where the numbers of the parts of so many elements end, if these have 32 bits.
fn end_of(element: Element, size: u32) -> Option<u32>
    ensures { IfSome result (λ end. end ≡ element.first + size * element.apart) }
{
    size.checked_mul(element.apart)?.checked_add(element.first)
}

/// Whether the parts of all elements of a stack are among so many.
pub fn is_element(layout: &FrameLayout, count: usize, element: Element) -> bool
    ensures { result ≡ true → IsElement layout.now count element }
{
    if (element.stack as usize) >= layout.stacks() {
        return false;
    }
    match end_of(element, layout.size(element.stack)) {
        Some(end) => (end.saturating_sub(element.apart) as usize) < count,
        None => false,
    }
}
