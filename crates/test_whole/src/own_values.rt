//! Values of doubles and of records, as docs/RUNNING-A-POOL.md writes them.

use pool_kernels::{bits_of, double_of, number_at, value_by};
use std::alloc::Global;
use std::test::Fail;
use tp_base::Refusal;
use tp_graph::Value;

/// Returns the mean of each two doubles.
fn means(alloc: Global, left: &[i64], right: &[i64]) -> Result<Value, Refusal> {
    value_by(alloc, left.len(), |e| {
        let sum = double_of(number_at(left, e)) + double_of(number_at(right, e));
        Some(bits_of(sum / 2.0))
    })
}

/// Returns the range that includes each two ranges. A range takes two numbers: its lowest and its highest.
fn joint(alloc: Global, left: &[i64], right: &[i64]) -> Result<Value, Refusal> {
    value_by(alloc, left.len(), |e| {
        let (a, b) = (number_at(left, e), number_at(right, e));
        Some(if e % 2 == 0 { a.min(b) } else { a.max(b) })
    })
}

/// Returns the value of a double.
fn of_double(alloc: Global, double: f64) -> Result<Value, Refusal> {
    value_by(alloc, 1, |_| Some(bits_of(double)))
}

#[test]
fn values_are_doubles(rt: HostRuntime) -> Result<(), Fail> {
    let alloc = rt.alloc();
    let (low, high) = (of_double(alloc, 0.5)?, of_double(alloc, -2.0)?);
    let mean = means(alloc, low.as_slice(), high.as_slice())?;
    assert_eq!(rt; double_of(number_at(mean.as_slice(), 0)), -0.75);
    let nan = of_double(alloc, f64::NAN)?;
    assert_eq!(rt; nan.as_slice(), of_double(alloc, -f64::NAN)?.as_slice());
    Ok(())
}

#[test]
fn values_are_records(rt: HostRuntime) -> Result<(), Fail> {
    let made = joint(rt.alloc(), &[3, 4, -1, 9], &[1, 2, 0, 10])?;
    assert_eq!(rt; made.as_slice(), [1, 4, -1, 10].as_slice());
    Ok(())
}
