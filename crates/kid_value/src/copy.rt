ghost use Rattle.std.specs.Prelude.{◌≡◌, IfOk, map};
ghost use Rattle.kid_value.specs.ValueView.{plain, plain_entry};

use crate::entries::Entries;
use crate::members::Members;
use crate::memory::Memory;
use crate::value::{BoxedValue, Value};
use crate::values::Values;
use std::alloc::Global;

impl Value {
    /// An equal value, or an error where memory is wanting.
    #[cycle(copy)]
    pub fn copy(&self, alloc: Global) -> Result<Value, Memory>
        ensures { IfOk result (λ v. plain v ≡ plain self.now) }
    {
        match self {
            Value::Int(n) => Ok(Value::Int(*n)),
            Value::Bool(b) => Ok(Value::Bool(*b)),
            Value::Pair(a, b) => {
                let first = a.inner.copy(alloc)?;
                let second = b.inner.copy(alloc)?;
                Ok(Value::Pair(
                    BoxedValue {
                        inner: Box::new(alloc, first)?,
                    },
                    BoxedValue {
                        inner: Box::new(alloc, second)?,
                    },
                ))
            }
            Value::Set(vs) => Ok(Value::Set(Members {
                items: copy_all(alloc, &vs.items)?,
            })),
            Value::Seq(vs) => Ok(Value::Seq(Values {
                items: copy_all(alloc, &vs.items)?,
            })),
            Value::Map(es) => Ok(Value::Map(Entries {
                items: copy_entries(alloc, &es.items)?,
            })),
            Value::Tag(n) => Ok(Value::Tag(n.copy(alloc)?)),
        }
    }
}

#[cycle(copy)]
fn copy_all(alloc: Global, items: &[Value]) -> Result<Vec<Value>, Memory>
    ensures { IfOk result (λ v. map plain v.items ≡ map plain items.now) }
{
    let mut copies = Vec::new(alloc);
    for v in items {
        copies.push(v.copy(alloc)?)?;
    }
    Ok(copies)
}

#[cycle(copy)]
fn copy_entries(alloc: Global, items: &[(Value, Value)]) -> Result<Vec<(Value, Value)>, Memory>
    ensures { IfOk result (λ v. map plain_entry v.items ≡ map plain_entry items.now) }
{
    let mut copies = Vec::new(alloc);
    for e in items {
        let key = e.0.copy(alloc)?;
        let value = e.1.copy(alloc)?;
        copies.push((key, value))?;
    }
    Ok(copies)
}
