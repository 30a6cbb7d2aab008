//! Lists and values once more.

ghost use Rattle.std.specs.Prelude.{◌≡◌, IfOk};

use crate::nv::{Cell, Content, Nv, NvLists, Value};
use fm_bytes::{Copies, NoMemory};
use std::alloc::Global;

impl Nv {
    /// The same list once more.
    #[cycle(copying)]
    pub fn copy(&self, alloc: Global) -> Result<Nv, NoMemory>
        ensures { IfOk result (λ list. list ≡ self.now) }
    {
        match &self.content {
            None => Ok(Nv::new(alloc)),
            Some(content) => {
                let content = Box::new(alloc, content.copy(alloc)?)?;
                Ok(Nv {
                    alloc,
                    content: Some(content),
                })
            }
        }
    }
}

impl Content {
    /// The same pairs once more.
    #[cycle(copying)]
    fn copy(&self, alloc: Global) -> Result<Content, NoMemory>
        ensures { IfOk result (λ content. content ≡ self.now) }
    {
        let names = Vec::from_slice(alloc, &self.names)?;
        let mut cells = Vec::with_capacity(alloc, self.cells.len())?;
        'cells: for cell in &self.cells {
            cells.push(cell.copy(alloc)?)?;
        }
        Ok(Content {
            deep: self.deep,
            ascending: self.ascending,
            names,
            cells,
        })
    }
}

impl Cell {
    /// The same cell once more.
    #[cycle(copying)]
    fn copy(&self, alloc: Global) -> Result<Cell, NoMemory>
        ensures { IfOk result (λ cell. cell ≡ self.now) }
    {
        let value = self.value.copy(alloc)?;
        Ok(Cell {
            end: self.end,
            value,
        })
    }
}

impl Value {
    /// The same value once more.
    #[cycle(copying)]
    pub fn copy(&self, alloc: Global) -> Result<Value, NoMemory>
        ensures { IfOk result (λ value. value ≡ self.now) }
    {
        match self {
            Value::Bool(flag) => Ok(Value::Bool(*flag)),
            Value::Unsigned(number) => Ok(Value::Unsigned(*number)),
            Value::Signed(number) => Ok(Value::Signed(*number)),
            Value::Text(text) => Ok(Value::Text(text.copy(alloc)?)),
            Value::List(list) => Ok(Value::List(list.copy(alloc)?)),
            Value::Unsigneds(numbers) => Ok(Value::Unsigneds(numbers.copy(alloc)?)),
            Value::Texts(texts) => Ok(Value::Texts(texts.copy(alloc)?)),
            Value::Lists(lists) => Ok(Value::Lists(lists.copy(alloc)?)),
        }
    }
}

impl NvLists {
    /// The same array once more.
    #[cycle(copying)]
    pub fn copy(&self, alloc: Global) -> Result<NvLists, NoMemory>
        ensures { IfOk result (λ array. array ≡ self.now) }
    {
        let mut items = Vec::new(alloc);
        'items: for list in &self.items {
            items.push(list.copy(alloc)?)?;
        }
        Ok(NvLists::from_vec(items))
    }
}
