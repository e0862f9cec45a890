// The numbers of the fields that code names, by GTFS Realtime: a module for each message.
pub mod feed_message {
    pub const HEADER: u64 = 1;

    pub const ENTITY: u64 = 2;
}

pub mod feed_entity {
    pub const IS_DELETED: u64 = 2;

    pub const TRIP_UPDATE: u64 = 3;
}

pub mod trip_update {
    pub const TRIP: u64 = 1;

    pub const STOP_TIME_UPDATE: u64 = 2;

    pub const DELAY: u64 = 5;
}

pub mod trip_descriptor {
    pub const TRIP_ID: u64 = 1;

    pub const START_TIME: u64 = 2;

    pub const START_DATE: u64 = 3;
}

pub mod stop_time_update {
    pub const STOP_SEQUENCE: u64 = 1;

    pub const ARRIVAL: u64 = 2;

    pub const DEPARTURE: u64 = 3;

    pub const STOP_ID: u64 = 4;

    pub const SCHEDULE_RELATIONSHIP: u64 = 5;
}

pub mod stop_time_event {
    pub const DELAY: u64 = 1;

    pub const TIME: u64 = 2;
}

// Those that a message of alerts lists.
pub mod alert_entity {
    pub const ALERT: u64 = 5;
}

pub mod alert {
    pub const INFORMED_ENTITY: u64 = 5;

    pub const HEADER_TEXT: u64 = 10;

    pub const DESCRIPTION_TEXT: u64 = 11;
}

pub mod entity_selector {
    pub const ROUTE_ID: u64 = 2;

    pub const TRIP: u64 = 4;

    pub const STOP_ID: u64 = 5;
}

pub mod translated_string {
    pub const TRANSLATION: u64 = 1;
}

pub mod translation {
    pub const TEXT: u64 = 1;
}
