//! Orders of lines.

use std::alloc::{AllocError, Global};

fn numbers_below(alloc: Global, count: usize) -> Result<Vec<usize>, AllocError> {
    let mut numbers = Vec::new(alloc);
    for number in 0..count {
        numbers.push(number)?;
    }
    Ok(numbers)
}

/// One of the orders of so many things, all different for numbers below the factorial of their count: the digits of the number
/// to the bases `count`, `count - 1` and so on say which of those that are left comes next.
pub(crate) fn order(alloc: Global, count: usize, number: u32) -> Result<Vec<usize>, AllocError> {
    let mut rest = numbers_below(alloc, count)?;
    let mut order = Vec::new(alloc);
    let mut code = number as usize;
    for _ in 0..count {
        let left = rest.len();
        if left > 0 {
            order.push(rest.remove(code % left))?;
            code /= left;
        }
    }
    Ok(order)
}
