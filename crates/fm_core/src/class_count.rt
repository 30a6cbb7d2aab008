use fm_name::Class;

/// How many reports of a class there were.
#[derive(Drop)]
pub struct ClassCount {
    pub class: Class,
    pub count: u64,
}
