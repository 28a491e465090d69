// The cells of a link's stores, as a merge or a load is lent them.
#![tactic(auto)]

// Ids: a merge's symbol ids, a load's marks.
#[derive(Drop)]
pub struct Stores<'a> {
    pub bytes: &'a mut [u8],
    pub names: &'a mut [u64],
    pub symbols: &'a mut [u64],
    pub sections: &'a mut [u64],
    pub inputs: &'a mut [u64],
    pub lists: &'a mut [u64],
    pub work: &'a mut [u64],
    pub ids: &'a mut [u64],
}
