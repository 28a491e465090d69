// A line of the lot: what isn't a path.
#[derive(Clone, Copy)]
pub struct Options<'a> {
    // None: _start, if there is one.
    pub entry: Option<&'a str>,
    pub gabi: bool,
}

const ENTRY: &str = "entry=";

const PROFILE: &str = "profile=";

// None: a profile that there isn't.
pub fn options_of(line: &str) -> Option<Options<'_>> {
    let mut options = Options {
        entry: None,
        gabi: false,
    };
    for field in line.split_whitespace() {
        if let Some(name) = field.strip_prefix(ENTRY) {
            options.entry = Some(name);
        } else if let Some(profile) = field.strip_prefix(PROFILE) {
            match profile {
                "gabi" => options.gabi = true,
                "old" => options.gabi = false,
                _ => return None,
            }
        }
    }
    Some(options)
}

pub fn is_path(field: &str) -> bool {
    !field.starts_with(ENTRY) && !field.starts_with(PROFILE)
}
