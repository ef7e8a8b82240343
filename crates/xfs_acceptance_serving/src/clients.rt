//! Clients, by what they say and hear.

use crate::words::cut_at;

/// The head and the texts of the client of a letter: its service and which take of its link fails, from 1; what it says,
/// and what it is to hear.
pub fn client_of(letter: u8) -> (&'static str, &'static str) {
    for client in CLIENTS.split("\n\n") {
        if client.as_bytes().first() == Some(&letter) {
            return cut_at(cut_at(client, "\n").1, "\n");
        }
    }
    ("", "")
}

const CLIENTS: &str = r#"s: it asks for the status
card 0
{"header":{"name":"Common.Status","requestId":1,"type":"command"}}
{"header":{"name":"Common.Status","requestId":1,"type":"acknowledge","version":"2.0"}}
{"header":{"completionCode":"success","name":"Common.Status","requestId":1,"type":"completion","version":"2.0"},"payload":{"common":{"device":"online"}}}

l: its link fails before it says anything
card 1
{"header":{"name":"Common.Status","requestId":1,"type":"command"}}
{"header":{"name":"Common.Status","requestId":1,"type":"acknowledge","version":"2.0"}}
{"header":{"completionCode":"success","name":"Common.Status","requestId":1,"type":"completion","version":"2.0"},"payload":{"common":{"device":"online"}}}

c: its link fails once it was answered
card 2
{"header":{"name":"Common.Status","requestId":1,"type":"command"}}
{"header":{"name":"Common.Status","requestId":1,"type":"acknowledge","version":"2.0"}}
{"header":{"completionCode":"success","name":"Common.Status","requestId":1,"type":"completion","version":"2.0"},"payload":{"common":{"device":"online"}}}

a: it has no room, and hears nothing
card 0
{"header":{"name":"Common.Status","requestId":1,"type":"command"}}

n: it is told the first nonce
cash 0
{"header":{"name":"Common.GetCommandNonce","requestId":1,"type":"command"}}
{"header":{"name":"Common.GetCommandNonce","requestId":1,"type":"acknowledge","version":"2.0"}}
{"header":{"completionCode":"success","name":"Common.GetCommandNonce","requestId":1,"type":"completion","version":"2.0"},"payload":{"commandNonce":"E56A5D4028BD86530000000000000001"}}

2: it is told the second
cash 0
{"header":{"name":"Common.GetCommandNonce","requestId":1,"type":"command"}}
{"header":{"name":"Common.GetCommandNonce","requestId":1,"type":"acknowledge","version":"2.0"}}
{"header":{"completionCode":"success","name":"Common.GetCommandNonce","requestId":1,"type":"completion","version":"2.0"},"payload":{"commandNonce":"B819D2BD1AED8DA00000000000000002"}}

t: its token is for the first nonce, which another client's replaced by the third record
cash 0
{"header":{"name":"CashDispenser.Dispense","requestId":1,"type":"command"},"payload":{"denomination":{"currencies":{"EUR":50}},"mix":"minimum","token":"NONCE=E56A5D4028BD86530000000000000001,TOKENFORMAT=1,TOKENLENGTH=0164,DISPENSE1=50.00EUR,HMACSHA256=3D5C9E3C4712EA6A5C3803CA4CB0E54958CB4C8778ACBBB26FEA1F6935956AC2"}}
{"header":{"name":"CashDispenser.Dispense","requestId":1,"type":"acknowledge","version":"2.0"}}
{"header":{"completionCode":"invalidTokenNonce","name":"CashDispenser.Dispense","requestId":1,"type":"completion","version":"2.0"},"payload":{"journalRecord":3}}

d: its token is for the first nonce, which lives
cash 0
{"header":{"name":"CashDispenser.Dispense","requestId":1,"type":"command"},"payload":{"denomination":{"currencies":{"EUR":50}},"mix":"minimum","token":"NONCE=E56A5D4028BD86530000000000000001,TOKENFORMAT=1,TOKENLENGTH=0164,DISPENSE1=50.00EUR,HMACSHA256=3D5C9E3C4712EA6A5C3803CA4CB0E54958CB4C8778ACBBB26FEA1F6935956AC2"}}
{"header":{"name":"CashDispenser.Dispense","requestId":1,"type":"acknowledge","version":"2.0"}}
{"header":{"completionCode":"success","name":"CashDispenser.Dispense","requestId":1,"type":"completion","version":"2.0"},"payload":{"denomination":{"currencies":{"EUR":50},"values":{"unit3":1}}}}

p: it has put out what another client dispensed
cash 0
{"header":{"name":"CashDispenser.Present","requestId":1,"type":"command"}}
{"header":{"name":"CashDispenser.Present","requestId":1,"type":"acknowledge","version":"2.0"}}
{"header":{"completionCode":"success","name":"CashDispenser.Present","requestId":1,"type":"completion","version":"2.0"},"payload":{}}

v: the publisher alone tells the services
publisher 0
{"header":{"name":"ServicePublisher.GetServices","requestId":1,"type":"command"}}
{"header":{"name":"ServicePublisher.GetServices","requestId":1,"type":"acknowledge","version":"2.0"}}
{"header":{"completionCode":"success","name":"ServicePublisher.GetServices","requestId":1,"type":"completion","version":"2.0"},"payload":{"services":[{"serviceURI":"ws://localhost:5847/xfs4iot/v1.0/cardreader"},{"serviceURI":"ws://localhost:5848/xfs4iot/v1.0/keyboard"},{"serviceURI":"ws://localhost:5849/xfs4iot/v1.0/cashdispenser"}],"vendorName":"xfs bench"}}

r: it waits for a card, which is put in
card 0
{"header":{"name":"CardReader.ReadRawData","requestId":1,"type":"command"},"payload":{"track2":true}}
{"header":{"name":"CardReader.ReadRawData","requestId":1,"type":"acknowledge","version":"2.0"}}
{"header":{"name":"CardReader.InsertCardEvent","requestId":1,"type":"event","version":"2.0"},"payload":{}}
{"header":{"name":"CardReader.MediaInsertedEvent","requestId":1,"type":"event","version":"2.0"},"payload":{}}
{"header":{"completionCode":"success","name":"CardReader.ReadRawData","requestId":1,"type":"completion","version":"2.0"},"payload":{"track2":{"data":"OzEyMzQ=","status":"ok"}}}

e: it waits for one key, which is pressed
keys 0
{"header":{"name":"Keyboard.DataEntry","requestId":1,"type":"command"},"payload":{"maxLen":1,"autoEnd":true,"activeKeys":{"one":{}}}}
{"header":{"name":"Keyboard.DataEntry","requestId":1,"type":"acknowledge","version":"2.0"}}
{"header":{"name":"Keyboard.KeyEvent","requestId":1,"type":"event","version":"2.0"},"payload":{"digit":"one"}}
{"header":{"completionCode":"success","name":"Keyboard.DataEntry","requestId":1,"type":"completion","version":"2.0"},"payload":{"completion":"auto","keys":1,"pinKeys":[{"digit":"one"}]}}"#;
