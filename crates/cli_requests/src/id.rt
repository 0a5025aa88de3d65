//! The id of a request, which its answer repeats.
ghost use Rattle.std.specs.Prelude.{◌≡◌, IfOk};
ghost use Rattle.serde_json.specs.Data.{null};
ghost use Rattle.serde_json.specs.View.{view as data_of};
ghost use Rattle.cli_requests.specs.Ids.{id_data, id_of};

use serde_json::Value;
use std::alloc::AllocError;

/// The `id` of a request, which is any JSON value. Contracts see its data, by `id_data`.
pub struct Id {
    value: Value,
}

impl Drop for Id {
    fn drop(self) {
        let Self { value: _ } = self;
    }
}

impl Id {
    /// Returns the id of a request that has none: `null`.
    pub fn none() -> Id
        ensures { id_data result ≡ null }
    {
        Id { value: Value::Null }
    }

    /// Returns the member `id` of a request, or `null` if it has none.
    pub(crate) fn of(value: &Value) -> Result<Id, AllocError>
        ensures { IfOk result (λ id. id_data id ≡ id_of (data_of value.now)) }
    {
        match value.get("id") {
            Some(value) => Ok(Id {
                value: value.clone()?,
            }),
            None => Ok(Id::none()),
        }
    }

    /// Returns the JSON value of the id.
    pub fn value(&self) -> &Value
        ensures { data_of result.now ≡ id_data self.now }
    {
        &self.value
    }
}
