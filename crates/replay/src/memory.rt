// The cells of a link's stores.
use replay_text::Names;
use replay_words::Lend;
use std::alloc::{AllocError, Global};

#[derive(Drop)]
pub(crate) struct NameCells {
    pub(crate) bytes: Vec<u8>,
    pub(crate) cells: Vec<u64>,
}

impl NameCells {
    pub(crate) fn lent(&self, lend: Lend) -> Names<'_> {
        Names {
            bytes: &self.bytes[..replay_words::cells(lend.bytes, self.bytes.len())],
            cells: &self.cells[..replay_words::wide_rows(lend.names, self.cells.len())],
        }
    }
}

// Ids: of a merge's symbols, or a load's marks. Marks: a collection's.
#[derive(Drop)]
pub(crate) struct Memory {
    pub(crate) names: NameCells,
    pub(crate) symbols: Vec<u64>,
    pub(crate) sections: Vec<u64>,
    pub(crate) inputs: Vec<u64>,
    pub(crate) lists: Vec<u64>,
    pub(crate) work: Vec<u64>,
    pub(crate) ids: Vec<u64>,
    pub(crate) marks: Vec<u8>,
}

impl Memory {
    pub(crate) fn new(alloc: Global) -> Result<Self, AllocError> {
        Ok(Memory {
            names: NameCells {
                bytes: vec![in alloc; 0; 65536]?,
                cells: vec![in alloc; 0; 4617]?,
            },
            symbols: vec![in alloc; 0; 4096]?,
            sections: vec![in alloc; 0; 576]?,
            inputs: vec![in alloc; 0; 512]?,
            lists: vec![in alloc; 0; 4096]?,
            work: vec![in alloc; 0; 4096]?,
            ids: vec![in alloc; 0; 513]?,
            marks: vec![in alloc; 0; 65536]?,
        })
    }
}
