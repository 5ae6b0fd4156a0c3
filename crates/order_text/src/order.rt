// What is asked of the router once its plan stands.
#[derive(Clone, Copy, PartialEq, Eq, Debug)]
pub enum Order {
    // shut a leg
    Shut {
        leg: u32,
    },
    // open it again
    Open {
        leg: u32,
    },
    // give a leg another class and another clearance
    Set {
        leg: u32,
        class: u32,
        clearance: u32,
    },
    // bring the marks of a hall up to date
    Renew {
        hall: u32,
    },
    // find the best way from one junction to another
    Route {
        start: u32,
        goal: u32,
    },
}
