// The captures. Bodies count up from a first byte; every checksum is right unless a comment says otherwise.

// The longest capture has 4,599 bytes. Noise makes each longer than the longest piece, 4,096 bytes.
const LONGEST: usize = 4600;

// A capture as it is put together.
#[derive(Clone, Copy)]
pub(crate) struct Capture {
    line: [u8; LONGEST],
    end: usize,
}

impl Capture {
    pub(crate) fn new() -> Capture {
        Capture {
            line: [0; LONGEST],
            end: 0,
        }
    }

    // The bytes so far.
    pub(crate) fn bytes(&self) -> &[u8] {
        self.line.get(..self.end).unwrap_or(&self.line)
    }

    // Puts a byte behind the others, if it fits.
    fn push(&mut self, byte: u8) {
        if let Some(place) = self.line.get_mut(self.end) {
            *place = byte;
            self.end += 1;
        }
    }

    fn put(&mut self, bytes: &[u8]) {
        for byte in bytes {
            self.push(*byte);
        }
    }

    // Puts n bytes that count up from first.
    fn count(&mut self, n: usize, first: u8) {
        let mut byte = first;
        for _ in 0..n {
            self.push(byte);
            byte = byte.wrapping_add(1);
        }
    }

    // A head, n bytes that count up from first, and a checksum.
    fn frame(&mut self, head: &[u8], n: usize, first: u8, sum: &[u8]) {
        self.put(head);
        self.count(n, first);
        self.put(sum);
    }
}

// MGL, 4,581 bytes: five frames, and two more at the close.
pub(crate) fn mgl(line: &mut Capture) {
    mgl_frames(line);
    mgl_nested(line);
    mgl_tail(line);
}

fn mgl_frames(line: &mut Capture) {
    // Noise with a lone start byte.
    line.put(b"\x00\x05\x00\x02MGL");
    line.frame(b"\x05\x02\x01\xFE", 13, 0x10, b"\xEA\xC4\x60\x18");
    // A start byte directly before a frame.
    line.put(b"\x05");
    line.frame(b"\x05\x02\x04\xFB", 16, 0x20, b"\x56\xDD\x1C\xBA");
    // A wrong checksum: the right one ends in 80.
    line.frame(b"\x05\x02\x04\xFB", 16, 0x30, b"\xB9\xC2\x75\x81");
    // A wrong complement.
    line.frame(b"\x05\x02\x04\xFA", 16, 0x40, b"\x34\x9D\x6A\x27");
    line.put(b"between");
    // Noise, and the longest frame, L = 0: all of it but the last byte stands in the first 4,096 bytes.
    line.count(3713, 0x00);
    line.frame(b"\x05\x02\x00\xFF", 268, 0x00, b"\x85\xC2\x24\x74");
}

fn mgl_nested(line: &mut Capture) {
    // A frame in the body of a longer candidate, whose checksum is wrong.
    line.frame(b"\x05\x02\x28\xD7", 10, 0x50, b"");
    line.frame(b"\x05\x02\x02\xFD", 14, 0x60, b"\xCE\xDE\xE6\x8F");
    line.frame(b"", 20, 0x70, b"\x00\x00\x00\x00");
    line.frame(b"\x05\x02\xFF\x00", 267, 0x80, b"\x70\x02\x9D\x67");
    line.put(b"after\x05\x02");
}

fn mgl_tail(line: &mut Capture) {
    // A cut candidate of 276 bytes with a frame in its body.
    line.frame(b"\x05\x02\x00\xFF", 20, 0x90, b"");
    line.frame(b"\x05\x02\x03\xFC", 15, 0xA0, b"\x30\x37\x45\x97");
    // In it a second one, cut too, with another frame.
    line.frame(b"\x05\x02\x80\x7F", 30, 0xB0, b"");
    line.frame(b"\x05\x02\x24\xDB", 48, 0xC0, b"\x43\x7A\x65\x47");
    line.put(b"end\x05\x02");
}

// OnFlight, 4,599 bytes: four frames. A cut candidate is shorter than a frame, so the close finds none.
pub(crate) fn onflight(line: &mut Capture) {
    onflight_frames(line);
    onflight_tail(line);
}

fn onflight_frames(line: &mut Capture) {
    line.put(b"\x00\x46\x01\x98F");
    line.frame(b"\x42\x46\x01\x98", 152, 0x00, b"\x23\xED");
    // A start byte directly before a frame.
    line.put(b"\x42");
    line.frame(b"\x42\x46\x01\x98", 152, 0x60, b"\x5C\x87");
    // A wrong checksum: the right one ends in 8D.
    line.frame(b"\x42\x46\x01\x98", 152, 0x80, b"\x57\x8C");
    // A wrong version, and a wrong length.
    line.frame(b"\x42\x46\x02\x98", 8, 0x10, b"");
    line.frame(b"\x42\x46\x01\x97", 8, 0x20, b"");
}

fn onflight_tail(line: &mut Capture) {
    // Noise, and a candidate that is cut by a frame: its 158 bytes end in the frame's, and all but the last stand in the first 4,096.
    line.count(3435, 0x00);
    line.frame(b"\x42\x46\x01\x98", 20, 0x30, b"");
    line.frame(b"\x42\x46\x01\x98", 152, 0xA0, b"\x4A\xAB");
    // A plain sum of 0 stored as FF, and then the same bytes with it stored as 00.
    line.frame(b"\x42\x46\x01\x98", 152, 0x23, b"\xFF\xED");
    line.put(b"between");
    line.frame(b"\x42\x46\x01\x98", 152, 0x23, b"\x00\xED");
    line.put(b"after\x42\x46");
    // A cut candidate, and a second one in its body.
    line.frame(b"\x42\x46\x01\x98", 40, 0xD0, b"");
    line.frame(b"\x42\x46\x01\x98", 100, 0xE0, b"");
}

// NMEA, 4,326 bytes: seven frames. A body has no $, so the close finds none.
pub(crate) fn nmea(line: &mut Capture) {
    nmea_frames(line);
    nmea_tail(line);
}

fn nmea_frames(line: &mut Capture) {
    line.put(b"x\r\n");
    line.put(b"$PLARB,12.33*4C\r\n");
    // A start byte directly before a frame.
    line.put(b"$$PLARD,922.54,M*10\r\n");
    // No body.
    line.put(b"$*00\r\n");
    // Noise, a body of 77 bytes, and the longest frame, with a body of 76: all of it but the last byte stands in the first 4,096 bytes.
    line.count(3885, 0x00);
    line.frame(b"$", 77, 0x2B, b"*2B\r\n");
    line.frame(b"$", 76, 0x2B, b"*5C\r\n");
}

fn nmea_tail(line: &mut Capture) {
    // A wrong checksum, and the right one.
    line.put(b"$PLARS,L,BAL,0.752*6B\r\n");
    line.put(b"$PLARS,L,BAL,0.752*5D\r\n");
    // A digit that is no capital.
    line.put(b"$PLARS,L,MC,1.3*1e\r\n");
    // A sentence cut by a frame, in its body and in its checksum.
    line.put(b"$PLARW,288,29,I");
    line.put(b"$PLARA,27.5,4.0,69.2*45\r\n");
    line.put(b"$PLARW,288,29,A,A*6");
    line.put(b"$PLARS,H,MC,2.1*1B\r\n");
    // LF before CR.
    line.put(b"$PLARS,H,BUGS,0*0B\n\r");
    line.put(b"between");
    line.put(b"$PLARV,1.46,2.98,2608,90*5C\r\n");
    line.put(b"after\r\n");
    // A cut sentence.
    line.put(b"$PLARS,L,QNH,1013.2*7");
}
